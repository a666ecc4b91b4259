//! What one line of a text of programs says.
ghost use Rattle.std.specs.Prelude.{◌≡◌, ◌≢◌, ◌<◌, ℕ, [], ◌∷◌, map, IfSome, IfNone, false};
ghost use Rattle.ivy_program.specs.stated.ProgramLimits.{register_count};
ghost use Rattle.ivy_program.specs.texts.Drafts.{has_place, knows_place};
ghost use Rattle.ivy_program.specs.texts.Lines.{SpellsLine, SpellsAction};
ghost use Rattle.ivy_program.specs.texts.Operands.{register_word, operation_word, IsWidthWord, IsName};
ghost use Rattle.ivy_program.specs.declared.instruction.Operation.{Operation};
ghost use Rattle.ivy_program.specs.declared.instruction.Width.{Width};
ghost use Rattle.ivy_program.specs.declared.line.Action.{Action};
ghost use Rattle.ivy_program.specs.declared.line.Line.{Line};

use crate::instruction::{Instruction, Operation, Register, Width};
use crate::words::parse_number;
use std::hash::{Hash, Hasher};
use std::marker::Model;

/// The most letters and digits that the name of a label has.
const MOST_LETTERS: usize = 16;

/// The name of a label: 1 to 16 small letters and digits, the first a letter; zeros fill it up.
///
/// Contracts see the word.
#[derive(Clone, Copy)]
pub(crate) struct Name {
    letters: [u8; MOST_LETTERS],
}

impl Model for Name {
    ghost use Rattle.std.specs.Prelude.{◌≡◌, ℕ, List};
    ghost use Rattle.std.proofs.Common.{ap, sym};
    ghost use Rattle.ivy_program.specs.texts.Operands.{IsName, letters_of, padded};

    ghost Value = { List ℕ };

    ghost view = { λ n. letters_of n.letters };

    ghost inverse = { λ word. record { letters = padded word } };

    ghost inverse_ok = { λ n h. ap (λ l. record { letters = l }) (sym h.1) };

    ghost invariant = { λ n. IsName (letters_of n.letters) × (n.letters ≡ padded (letters_of n.letters)) };
}

impl Name {
    /// The name that a word is, if it is one.
    pub(crate) fn new(word: &str) -> Option<Name>
        ensures found { IfSome result (λ name. IsName word.now × (name ≡ word.now)) }
        ensures none { IfNone result (¬ IsName word.now) }
    {
        let bytes = word.as_bytes();
        let [first, ..] = *bytes else {
            return None;
        };
        let named = bytes
            .iter()
            .all(|b| b.is_ascii_lowercase() || b.is_ascii_digit());
        if !first.is_ascii_lowercase() || !named || bytes.len() > MOST_LETTERS {
            return None;
        }
        let mut letters = [0; MOST_LETTERS];
        letters[..bytes.len()].copy_from_slice(bytes);
        Some(Name { letters })
    }
}

impl PartialEq for Name {
    ghost use Rattle.std.specs.Cmp.{nat_eq_equiv, partial_equiv_from_equiv};
    ghost use Rattle.std.specs.Cmp.Lexicographic.{lists_equiv};
    ghost use Rattle.ivy_program.specs.texts.Names.{same_name};

    ghost eq = { same_name };

    ghost laws = { partial_equiv_from_equiv (lists_equiv nat_eq_equiv) };

    fn eq(&self, other: &Name) -> bool {
        self.letters == other.letters
    }
}

impl Eq for Name {
    ghost use Rattle.std.specs.Cmp.{nat_eq_equiv};
    ghost use Rattle.std.specs.Cmp.Lexicographic.{lists_equiv};

    ghost laws = { lists_equiv nat_eq_equiv };
}

impl Hash for Name {
    ghost use Rattle.std.specs.Hash as fed;
    ghost use Rattle.std.proofs.Common.{ap, sym};
    ghost use Rattle.std.specs.Cmp.Lexicographic.{same_text};
    ghost use Rattle.ivy_program.specs.texts.Operands.{padded};

    ghost hash_input = { λ name. fed.slice fed.u8 (padded name) };

    ghost respects_eq = { λ a b same. ap (λ name. fed.slice fed.u8 (padded name)) (same_text a b (sym same)) };

    fn hash<H: Hasher>(&self, state: &mut H) {
        self.letters.hash(state);
    }
}

/// What a line of a program does. A jump names its label, which may come later.
#[derive(Clone, Copy)]
pub(crate) enum Action {
    Plain(Instruction),
    Jump(Name),
    JumpIfZero(Register, Name),
}

/// The register that a word names.
fn parse_register(word: &str) -> Option<Register>
    ensures found { IfSome result (λ r. word.now ≡ register_word r) }
    ensures none { IfNone result ((r : ℕ) → r < register_count → word.now ≢ register_word r) }
{
    match *word.as_bytes() {
        [b'r', digit @ b'0'..=b'9'] => Register::new(digit - b'0'),
        [b'r', b'1', digit @ b'0'..=b'5'] => Register::new(10 + (digit - b'0')),
        _ => None,
    }
}

/// The width that a word is the number of.
fn parse_width(word: &str) -> Option<Width>
    ensures found { IfSome result (λ w. IsWidthWord word.now w) }
    ensures none { IfNone result ((w : Width) → ¬ IsWidthWord word.now w) }
{
    match parse_number(word)? {
        1 => Some(Width::One),
        2 => Some(Width::Two),
        4 => Some(Width::Four),
        8 => Some(Width::Eight),
        _ => None,
    }
}

fn parse_operation(word: &str) -> Option<Operation>
    ensures found { IfSome result (λ o. word.now ≡ operation_word o) }
    ensures none { IfNone result ((o : Operation) → word.now ≢ operation_word o) }
{
    match word {
        "add" => Some(Operation::Add),
        "sub" => Some(Operation::Sub),
        "mul" => Some(Operation::Mul),
        _ => None,
    }
}

/// The action of a line of one word.
fn parse_alone(keyword: &str) -> Option<Action>
    ensures found { IfSome result (λ a. SpellsAction (keyword.now ∷ []) a) }
    ensures none { IfNone result ((a : Action) → ¬ SpellsAction (keyword.now ∷ []) a) }
    ensures plain { IfSome result (λ a. has_place a ≡ false) }
{
    match keyword {
        "stop" => Some(Action::Plain(Instruction::Stop)),
        _ => None,
    }
}

/// The action of a line of two words.
fn parse_unary(keyword: &str, operand: &str) -> Option<Action>
    ensures found { IfSome result (λ a. SpellsAction (keyword.now ∷ operand.now ∷ []) a) }
    ensures none { IfNone result ((a : Action) → ¬ SpellsAction (keyword.now ∷ operand.now ∷ []) a) }
    ensures plain { IfSome result (λ a. has_place a ≡ false) }
{
    Some(match keyword {
        "advance" => Action::Plain(Instruction::Advance {
            count: parse_register(operand)?,
        }),
        "free" => Action::Plain(Instruction::Free {
            addr: parse_register(operand)?,
        }),
        "status" => Action::Plain(Instruction::Status {
            to: parse_register(operand)?,
        }),
        "print" => Action::Plain(Instruction::Print {
            from: parse_register(operand)?,
        }),
        "jump" => Action::Jump(Name::new(operand)?),
        _ => return None,
    })
}

/// The action of a line of three words.
fn parse_binary(keyword: &str, first: &str, second: &str) -> Option<Action>
    ensures found { IfSome result (λ a. SpellsAction (keyword.now ∷ first.now ∷ second.now ∷ []) a) }
    ensures none { IfNone result ((a : Action) → ¬ SpellsAction (keyword.now ∷ first.now ∷ second.now ∷ []) a) }
    ensures plain { IfSome result (λ a. has_place a ≡ false) }
{
    Some(match keyword {
        "set" => Action::Plain(Instruction::Set {
            to: parse_register(first)?,
            value: parse_number(second)?,
        }),
        "mov" => Action::Plain(Instruction::Move {
            to: parse_register(first)?,
            from: parse_register(second)?,
        }),
        "count" => Action::Plain(Instruction::Count {
            to: parse_register(first)?,
            count: parse_register(second)?,
        }),
        "alloc" => Action::Plain(Instruction::Alloc {
            to: parse_register(first)?,
            size: parse_register(second)?,
        }),
        "jumpz" => Action::JumpIfZero(parse_register(first)?, Name::new(second)?),
        _ => return None,
    })
}

/// The action of a line of four words.
fn parse_ternary(keyword: &str, first: &str, second: &str, third: &str) -> Option<Action>
    ensures found { IfSome result (λ a. SpellsAction (keyword.now ∷ first.now ∷ second.now ∷ third.now ∷ []) a) }
    ensures none { IfNone result ((a : Action) → ¬ SpellsAction (keyword.now ∷ first.now ∷ second.now ∷ third.now ∷ []) a) }
    ensures plain { IfSome result (λ a. has_place a ≡ false) }
{
    Some(Action::Plain(match keyword {
        "load" => Instruction::Load {
            width: parse_width(first)?,
            to: parse_register(second)?,
            addr: parse_register(third)?,
        },
        "store" => Instruction::Store {
            width: parse_width(first)?,
            addr: parse_register(second)?,
            from: parse_register(third)?,
        },
        "await" => Instruction::Await {
            to: parse_register(first)?,
            count: parse_register(second)?,
            least: parse_register(third)?,
        },
        _ => Instruction::Compute {
            operation: parse_operation(keyword)?,
            to: parse_register(first)?,
            left: parse_register(second)?,
            right: parse_register(third)?,
        },
    }))
}

/// The action of a line of five words.
fn parse_quaternary(
    keyword: &str,
    first: &str,
    second: &str,
    third: &str,
    fourth: &str,
) -> Option<Action>
    ensures found { IfSome result (λ a. SpellsAction (keyword.now ∷ first.now ∷ second.now ∷ third.now ∷ fourth.now ∷ []) a) }
    ensures none { IfNone result ((a : Action) → ¬ SpellsAction (keyword.now ∷ first.now ∷ second.now ∷ third.now ∷ fourth.now ∷ []) a) }
    ensures plain { IfSome result (λ a. has_place a ≡ false) }
{
    Some(Action::Plain(match keyword {
        "swap" => Instruction::Swap {
            width: parse_width(first)?,
            to: parse_register(second)?,
            addr: parse_register(third)?,
            from: parse_register(fourth)?,
        },
        "fadd" => Instruction::FetchAdd {
            width: parse_width(first)?,
            to: parse_register(second)?,
            addr: parse_register(third)?,
            from: parse_register(fourth)?,
        },
        _ => return None,
    }))
}

/// The action of a line of six words.
fn parse_quinary(
    keyword: &str,
    first: &str,
    second: &str,
    third: &str,
    fourth: &str,
    fifth: &str,
) -> Option<Action>
    ensures found { IfSome result (λ a. SpellsAction (keyword.now ∷ first.now ∷ second.now ∷ third.now ∷ fourth.now ∷ fifth.now ∷ []) a) }
    ensures none { IfNone result ((a : Action) → ¬ SpellsAction (keyword.now ∷ first.now ∷ second.now ∷ third.now ∷ fourth.now ∷ fifth.now ∷ []) a) }
    ensures plain { IfSome result (λ a. has_place a ≡ false) }
{
    Some(Action::Plain(match keyword {
        "cas" => Instruction::Cas {
            width: parse_width(first)?,
            to: parse_register(second)?,
            addr: parse_register(third)?,
            expected: parse_register(fourth)?,
            from: parse_register(fifth)?,
        },
        _ => return None,
    }))
}

impl Action {
    /// What the line of these words does, where it is an instruction.
    fn read(words: &[&str]) -> Option<Action>
        ensures found { IfSome result (λ a. SpellsAction (map (λ w. w.now) words.now) a) }
        ensures none { IfNone result ((a : Action) → ¬ SpellsAction (map (λ w. w.now) words.now) a) }
        ensures plain { IfSome result (λ a. has_place a ≡ false) }
    {
        match *words {
            [keyword] => parse_alone(keyword),
            [keyword, operand] => parse_unary(keyword, operand),
            [keyword, first, second] => parse_binary(keyword, first, second),
            [keyword, first, second, third] => parse_ternary(keyword, first, second, third),
            [keyword, first, second, third, fourth] => {
                parse_quaternary(keyword, first, second, third, fourth)
            }
            [keyword, first, second, third, fourth, fifth] => {
                parse_quinary(keyword, first, second, third, fourth, fifth)
            }
            _ => None,
        }
    }
}

/// What a line says.
#[derive(Clone, Copy)]
pub(crate) enum Line {
    /// Nothing: it has no words.
    Blank,
    /// `node I`: the program of this node begins.
    Node(u64),
    /// `label NAME`: the next instruction has this name.
    Label(Name),
    /// An instruction.
    Does(Action),
}

impl Line {
    /// What the line of these words says, where it is one.
    pub(crate) fn read(words: &[&str]) -> Option<Line>
        ensures found { IfSome result (λ line. SpellsLine (map (λ w. w.now) words.now) line) }
        ensures none { IfNone result ((line : Line) → ¬ SpellsLine (map (λ w. w.now) words.now) line) }
        ensures plain { IfSome result (λ line. knows_place line ≡ false) }
    {
        Some(match *words {
            [] => Line::Blank,
            ["node", node] => Line::Node(parse_number(node)?),
            ["label", name] => Line::Label(Name::new(name)?),
            _ => Line::Does(Action::read(words)?),
        })
    }
}
