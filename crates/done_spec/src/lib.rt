// When all of a paper is done: in specs/ the test, and in other words. A model walk's ending and an answer's outcome both go by it. No code.
#![tactic(auto)]
