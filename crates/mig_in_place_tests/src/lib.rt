//! Tests of the load of several channels in place. Its answers are those of a `Session` that is fed
//! the same bytes, in any pieces and any order of the sources. When it is done the memory is the
//! guest's. A load of whole rounds has the session's memory after each piece.
#![tactic(auto)]

#[cfg(test)]
mod alike;
#[cfg(test)]
mod apart;
#[cfg(test)]
mod both;
#[cfg(test)]
mod ends;
#[cfg(test)]
mod faulty;
#[cfg(test)]
mod framed;
#[cfg(test)]
mod held;
#[cfg(test)]
mod texts;
#[cfg(test)]
mod turning;
