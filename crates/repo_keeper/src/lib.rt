//! Repositories of key elements: lists that grow.
#![tactic(auto)]

mod keeper;
mod make;
mod mem_keeper;
mod own_repo;
mod repo;

pub use keeper::{Keeper, KeeperError, PutError};
pub use make::{BadDates, KEY_DRAW, MakeRefused, mass_revocation, new_key, revocation};
pub use mem_keeper::MemKeeper;
pub use own_repo::OwnRepo;
pub use repo::{Repo, RepoError};

#[cfg(test)]
mod tests;
