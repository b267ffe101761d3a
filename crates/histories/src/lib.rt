// No code: histories of calls. specs/ defines them, and every promise over whole runs is stated by these definitions.
#![tactic(auto)]
