//! The callers of `docs/USING.md`, with tests. Their results are compared with OpenSSL, Python's
//! `hashlib`, and what the scripts of `tools/` put together from the standards.
#![tactic(auto)]

#[cfg(test)]
mod algorithms;
#[cfg(test)]
mod certificates;
#[cfg(test)]
mod histories;
#[cfg(test)]
mod issuing;
#[cfg(test)]
mod judging;
#[cfg(test)]
mod keys;
#[cfg(test)]
mod names;
#[cfg(test)]
mod private_keys;
#[cfg(test)]
mod reading;
#[cfg(test)]
mod schemes;
#[cfg(test)]
mod servers;
#[cfg(test)]
mod signing;
#[cfg(test)]
mod validating;
