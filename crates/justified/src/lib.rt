#![tactic(auto)]

ghost use Rattle.std.specs.Prelude.{◌≡◌, ◌<◌, ◌^◌};
ghost use Rattle.paper.specs.Rules.{negation};
ghost use Rattle.justified.specs.ByLiteral.{line_in};

// What the line of a literal says in a reason sheet: its rank, the head of the rule that it names, its group's number.
#[derive(Clone, Copy)]
pub struct Line {
    pub rank: u16,
    pub head: u16,
    pub group: u16,
}

// The line of a literal that has none.
pub const NO_LINE: Line = Line {
    rank: 0,
    head: 0,
    group: 0,
};

// The line of a literal; none past the end.
pub fn line_of(lines: &[Line], l: usize) -> Line
    ensures { result ≡ line_in lines.now l }
{
    lines.get(l).copied().unwrap_or(NO_LINE)
}

// The same literal with the other sign.
pub fn negated(l: usize) -> usize
    requires { l < 2 ^ 16 }
    ensures { result ≡ negation l }
{
    2 * (l / 2) + (1 - l % 2)
}
