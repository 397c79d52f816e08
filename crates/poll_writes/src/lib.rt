// What a taken poll writes: it is noted; on success the ancestry's members are raised, and each is settled; on failure their slots may be cleared. Names,
// votes and refusals are judged above.
#![tactic(auto)]

pub mod clearing;
pub mod raising;
pub mod settling;
pub mod walk;
pub mod writing;
