// What no clause says: that the calls find memory, the bytes of worked examples, that what a database holds in another
// form is a counted fault, and what a file keeps.
mod bodies;
mod files;
mod keepers;
mod other_forms;
