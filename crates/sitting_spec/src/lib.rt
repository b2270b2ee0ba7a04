// What a marker is told of a candidate, in specs/: the name, what the judge prints, and seven lines after it. No code.
// Proved: no byte of a name or an answer begins a line (specs/Claims); the seven lines of answers and of plans on small papers, byte by byte (specs/Cases).
#![tactic(auto)]
