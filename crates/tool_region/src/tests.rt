//! The region and the memo, each in a heap and in `Global`.

mod memo;
mod region;
