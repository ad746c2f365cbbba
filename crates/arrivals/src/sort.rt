// The two sorts of packets, under the path that callers of a calendar know.
pub use traffic::sort::Sort;
