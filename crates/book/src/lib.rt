// Laws of whole files over definitions: what a sound book's file reads as, and which files are settled.
#![tactic(auto)]
