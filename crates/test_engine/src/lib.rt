//! Tests of the engine, of facts that no clause states and no row can test.
//!
//! The rows are those of `test_check_rows`. The tests cover the engine with a keyword type, a
//! table, a resolver or a matcher of their own (`test_parts`); calls that are made once more after
//! lack of memory, or that count their questions; a reference chain that needs more stack than some
//! compilers leave; and the output of the program `engine_bench`.
//!
//! Their cases are rows of tables, which `rows` tests one by one. A row begins with the text that
//! is wanted. Few functions call the engine, mostly in `asking`, so that there is little to prove.
//! A proved function is not tested for what its clauses state.
#![tactic(auto)]

#[cfg(test)]
mod asking;
#[cfg(test)]
mod chain_tests;
#[cfg(test)]
mod failing_matcher_tests;
#[cfg(test)]
mod growing_tests;
#[cfg(test)]
mod leaf_tests;
#[cfg(test)]
mod mark_tests;
#[cfg(test)]
mod program_tests;
#[cfg(test)]
mod reservation_tests;
#[cfg(test)]
mod retry_tests;
#[cfg(test)]
mod rows;
#[cfg(test)]
mod vocabulary_tests;
