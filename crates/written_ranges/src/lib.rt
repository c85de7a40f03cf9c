// Laws over definitions: every range that is written is read alike at fixed places and by its fields.
#![tactic(auto)]
