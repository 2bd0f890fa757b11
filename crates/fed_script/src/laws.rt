// Laws of scripts.
ghost use Rattle.fed_script.specs.Laws.{WordsInTurn, EchoAnswers, Progresses};

/// What scripts give, one action after another (docs/RULES.md, Scripts): without echoes each word's
/// action in turn, with each repeat written out; an echo's answer to each letter, the oldest first; and
/// with each action either a word less is left, or a letter less.
pub fn script_laws()
    ensures in_turn { WordsInTurn }
    ensures echo { EchoAnswers }
    ensures progress { Progresses }
{}
