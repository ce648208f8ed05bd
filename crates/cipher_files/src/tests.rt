//! What no clause says of files: that calls succeed with ample memory, and the bytes that another
//! program writes.
mod reading;
mod writing;
