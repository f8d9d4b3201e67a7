//! Lemmas that std has no name for: on truth values, tests of numbers, options, lists, facts of their members, and texts. They
//! speak of std's words alone, so that every crate can cite them. The crate has no code; its lemmas stand in `specs/`.
#![tactic(auto)]
