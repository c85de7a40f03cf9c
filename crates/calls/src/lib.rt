// The calls that write a file, a list of them and the book, as definitions: code and theorems cite them.
#![tactic(auto)]
