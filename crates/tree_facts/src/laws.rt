// Laws of trees.
ghost use Rattle.tree_facts.specs.Cuts.{CutFacts};

/// What an edge of a tree cuts, and which way leads where (docs/RULES.md, Trees).
pub fn cut_facts()
    ensures { CutFacts }
{}
