// The calls on the gains in the sound of an MP3, as definitions: code and theorems cite them.
#![tactic(auto)]
