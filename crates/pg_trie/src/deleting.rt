//! What the end of a level deletes: records that no value needs, and cells that none does.
pub mod prune;
pub mod renew;
