//! What code means: the definition of every expression and statement, as the questions that it asks of cells and names, in
//! order, with what it goes on to by each answer (`specs/Eval.antt`), over what operators and reading methods give
//! (`specs/Operate.antt`, `specs/Methods.antt`). It holds no code that runs; bindings, functions and bodies are evaluated by
//! crates above, whose contracts cite it. Its laws say that the tests in which the definition is written are the relations
//! of `qml_value`.
#![tactic(auto)]

pub mod laws;
mod rounding;

pub use rounding::Rounding;
