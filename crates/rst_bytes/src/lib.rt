// Bytes and the pieces of `nom`: the domain, characters, words, `trim_end`, `escaped` and lines.
//
// The lowest layer (document 01, "Bytes and the `nom` pieces"). A function takes the part of the document that starts at its
// place, but `char_at` all of it and a place; it reads nothing else, asks nothing of its caller and always returns; its contract is
// an equation with a definition of specs/, but that of `escaped_front`, which may end anywhere before what ends a part does, and of
// `copy`, which is no piece of `nom`, asks for room and says itself what it leaves.
#![tactic(auto)]

pub mod copy;
pub mod domain;
pub mod escaped;
pub mod free;
mod lanes;
pub mod line;
pub mod tag;
pub mod trim;
pub mod word;
