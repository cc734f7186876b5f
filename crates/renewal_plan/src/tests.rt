// What no clause says: that the calls find memory, and how worked texts come out.
mod need_text;
mod plans;
