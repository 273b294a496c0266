//! What is told of the failures of an evaluation doesn't hang on its memo.
#![tactic(auto)]

pub mod laws;
