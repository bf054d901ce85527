//! What each command line writes, and which files it reads: definitions alone.
#![tactic(auto)]
