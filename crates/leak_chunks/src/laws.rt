//! Worked chunks, worked links, and worked slack.
ghost use Rattle.leak_chunks.specs.Rows.{AreWorkedChunks};
ghost use Rattle.leak_chunks.specs.LinkRows.{AreWorkedLinks, AreWorkedHits};
ghost use Rattle.leak_chunks.specs.SlackRows.{AreWorkedSlack, AreWorkedSlackWords};

/// Some size words, and whether a block fits them.
#[tactic(auto, unfolding(crate::specs::Fit::fits_core))]
pub fn worked_chunks()
    ensures { AreWorkedChunks }
{}

/// Some words, and whether they are links to free chunks.
#[tactic(auto, unfolding(crate::specs::FreeLinks::is_free_link))]
pub fn worked_links()
    ensures { AreWorkedLinks }
{}

/// The blocks that a word leads to, and those that are left without links to free chunks.
#[tactic(auto, unfolding(crate::specs::FreeLinks::is_free_link))]
pub fn worked_hits()
    ensures { AreWorkedHits }
{}

/// The slack of some blocks, and the words that lie in it.
pub fn worked_slack()
    ensures spans { AreWorkedSlack }
    ensures words { AreWorkedSlackWords }
{}
