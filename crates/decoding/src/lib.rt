// Bytes are read in one way: what is read of a paper's bytes, and that different papers have different bytes.
#![tactic(auto)]

ghost use Rattle.decoding.specs.Decoding.{ReadsBack, Apart};

// What is read of a paper's bytes is that paper.
pub fn papers_read_back()
    ensures { ReadsBack }
{}

// Two papers with equal bytes are equal.
pub fn papers_apart()
    ensures { Apart }
{}
