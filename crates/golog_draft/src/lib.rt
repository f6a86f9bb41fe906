//! What a part of an agent keeps to before it is read to its end, and at which places its parts stand.
//!
//! Specifications alone: what a draft that was read keeps of the rules of its notation
//! (`specs/Drafts`), at which places a part of a draft may be refused (`specs/DraftPlaces`), and
//! that these stand in order (`specs/DraftOrder`). golog_theory and golog_prog promise it of what
//! they read, golog_check, golog_file and golog_refusals cite it.
#![tactic(auto)]
