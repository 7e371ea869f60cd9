//! Tests over the top calls that no transcript tells: of bytes, damage, sizes, stops, calls that fail and false replies.
//! It has no code of its own and promises nothing beside them.
//! It uses `tw_cli` and `timew_cli`, and the objects in memory of `tw_world` and `tw_server`.
#![tactic(auto)]

#[cfg(test)]
mod added;
#[cfg(test)]
mod batches;
#[cfg(test)]
mod carried;
#[cfg(test)]
mod changes;
#[cfg(test)]
mod damage;
#[cfg(test)]
mod given;
#[cfg(test)]
mod hints;
#[cfg(test)]
mod hours;
#[cfg(test)]
mod link;
#[cfg(test)]
mod replies;
#[cfg(test)]
mod runs;
#[cfg(test)]
mod sizes;
#[cfg(test)]
mod stores;
#[cfg(test)]
mod syncs;
#[cfg(test)]
mod timew;
#[cfg(test)]
mod world;
