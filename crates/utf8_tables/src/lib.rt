// Laws over definitions: any table of 256 numbers, each of them the class number of its place, gives each first byte its class.
#![tactic(auto)]
