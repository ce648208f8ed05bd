//! What no clause says of a scan: that it succeeds with ample memory, and what a store does that ends a
//! read early.
mod scanning;
