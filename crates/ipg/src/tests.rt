//! Replies of `run`, and the parts that it is made of, with values that came from elsewhere.

mod body;
mod leaves;
mod replies;
mod rows;
mod script;
mod store;
mod words;
