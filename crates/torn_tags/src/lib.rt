// Laws over definitions: what is found of a file whose end is being rewritten, after each write, and what the gate says of it.
#![tactic(auto)]
