// The three demands, said of the calls as they are: no code. Open specs/Promises.antt first.

#![tactic(auto)]
