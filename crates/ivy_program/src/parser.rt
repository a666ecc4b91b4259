ghost use Rattle.std.specs.Prelude.{◌≡◌, ◌≤◌, ◌<◌, ◌+◌, ◌^◌, ℕ, List, [], Option, Some, length, All, IfOk, IfErr, OnErr, IfSome, IfNone, IsOkUnless, false};
ghost use Rattle.std.specs.List.{list_all};
ghost use Rattle.ivy_program.specs.declared.line.Line.{Line};
ghost use Rattle.ivy_model.specs.declared.Fault.TheVariants.{Memory};
ghost use Rattle.ivy_program.specs.texts.Drafts.{has_place, knows_place};
ghost use Rattle.ivy_program.specs.Instructions.{NamesRegisters, JumpsWithin};
ghost use Rattle.ivy_program.specs.Programs.{IsWritten};
ghost use Rattle.ivy_program.specs.texts.ProgramParts.{joined, labelled, lengthened, label_place};
ghost use Rattle.ivy_program.specs.texts.Readings.{Changes, finds_all, HasLost, IsLeastOrNone, IsReadAs, TakesIn, lesser, program_of, resolved};
ghost use Rattle.ivy_program.specs.texts.Texts.{ArePrograms, IsFaultOf, IsFaultOfText, IsRefusal, IsTextReadAs, SpellsPrograms, SpellsText};

use crate::instruction::Instruction;
use crate::line::{Action, Line, Name};
use crate::program::{MOST_INSTRUCTIONS, Program};
use crate::words::few_words;
use indexmap::IndexMap;
use ivy_model::Fault;
use std::alloc::Allocator;
use std::hash::{BuildHasherDefault, FoldHasher};
use std::marker::Model;

/// The most programs that a text can have.
const MOST_PROGRAMS: usize = 32;

/// The most words that a line can have that says anything.
const MOST_WORDS: usize = 6;

/// The number of a line, counted from 1.
#[derive(Clone, Copy, PartialEq, Eq)]
struct LineNumber {
    number: u64,
}

impl Model for LineNumber {
    ghost use Rattle.std.specs.Prelude.{◌≤◌, ℕ};

    ghost Value = { ℕ };

    ghost view = { λ l. l.number };

    ghost inverse = { λ n. record { number = n } };

    ghost invariant = { λ l. 1 ≤ l.number };
}

impl LineNumber {
    /// The number of the line that has so many lines before it.
    fn after(lines: usize) -> LineNumber
        requires { lines + 1 < 2 ^ 64 }
        ensures { result ≡ lines + 1 }
    {
        LineNumber {
            number: lines as u64 + 1,
        }
    }

    fn get(self) -> u64
        ensures number { result ≡ self }
        ensures from_one { 1 ≤ result }
    {
        self.number
    }
}

/// The least of the lines at fault.
fn least(known: Option<LineNumber>, line: LineNumber) -> LineNumber
    ensures { result ≡ lesser known line }
{
    match known {
        Some(other) if other.get() < line.get() => other,
        _ => line,
    }
}

/// A line of a program that does something.
#[derive(Clone, Copy)]
struct Numbered {
    number: LineNumber,
    action: Action,
}

/// The program of a node as far as it was read: its lines, and the places of its labels by their names.
#[derive(Drop)]
struct Draft<A: Allocator> {
    alloc: A,
    lines: Vec<Numbered, A>,
    labels: IndexMap<Name, usize, BuildHasherDefault<FoldHasher>, A>,
}

impl<A: Allocator> Model for Draft<A> {
    ghost use Rattle.ivy_program.specs.texts.Drafts.{IsSoundDraft};
    ghost use Rattle.ivy_program.specs.texts.ProgramParts.{Part};

    ghost Value = { Part };

    ghost view = { λ d. record { lines = d.lines.items; labels = d.labels.entries } };

    ghost invariant = { λ d. IsSoundDraft d.lines.items d.labels.entries };
}

impl<A: Allocator + Copy> Draft<A> {
    fn new(alloc: A) -> Draft<A>
        ensures { result ≡ record { lines = []; labels = [] } }
    {
        Draft {
            alloc,
            lines: Vec::new(alloc),
            labels: IndexMap::new(alloc),
        }
    }

    /// Adds a line. False where the program is full.
    fn add(&mut self, line: Numbered) -> Result<bool, Fault>
        requires { has_place line.action ≡ false }
        ensures added { IfOk result (λ ok. Changes ok self.old (lengthened self.old line) self.new) }
        ensures want { IsOkUnless result Memory }
    {
        if self.lines.len() >= MOST_INSTRUCTIONS {
            return Ok(false);
        }
        self.lines.push(line)?;
        Ok(true)
    }

    /// Names the next instruction. False where the name is there already.
    fn label(&mut self, name: Name) -> Result<bool, Fault>
        ensures added { IfOk result (λ ok. Changes ok self.old (labelled self.old name (label_place self.old.labels name)) self.new) }
        ensures want { IsOkUnless result Memory }
    {
        if self.place_of(name).is_some() {
            return Ok(false);
        }
        self.labels.insert(name, self.lines.len())?;
        Ok(true)
    }

    /// The place that has this name.
    fn place_of(&self, name: Name) -> Option<usize>
        ensures found { result ≡ label_place self.now.labels name }
        ensures inside { IfSome result (λ place. place ≤ length self.now.lines) }
    {
        self.labels.get(&name).copied()
    }

    /// The instruction of an action, where its label is known.
    #[tactic(auto, using(crate::proofs::reading::Drafts::nowhere))]
    fn resolve(&self, action: Action) -> Option<Instruction>
        requires { has_place action ≡ false }
        ensures found { result ≡ resolved self.now.labels action }
        ensures named { IfSome result NamesRegisters }
        ensures inside { IfSome result (JumpsWithin (length self.now.lines)) }
    {
        match action {
            Action::Plain(instruction) => Some(instruction),
            Action::Jump(name) => Some(Instruction::Jump {
                place: self.place_of(name)?,
            }),
            Action::JumpIfZero(from, name) => Some(Instruction::JumpIfZero {
                from,
                place: self.place_of(name)?,
            }),
        }
    }

    /// Whether each jump finds its label.
    fn finds_all(&self) -> bool
        ensures { result ≡ finds_all self.now }
    {
        self.lines
            .iter()
            .all(|line| self.resolve(line.action).is_some())
    }

    /// The program, or the first line that jumps to an unknown name [1].
    fn program(&self) -> Result<Result<Program<A>, LineNumber>, Fault>
        ensures program { IfOk result (λ read. IfOk read (λ p. p ≡ program_of self.now)) }
        ensures whole { IfOk result (λ read. IfOk read (λ _. (n : ℕ) → ¬ HasLost self.now n)) }
        ensures lost { IfOk result (λ read. IfErr read (λ n. IsLeastOrNone (HasLost self.now) (Some n))) }
        ensures sound { IfOk result (λ read. IfOk read IsWritten) }
        ensures want { IsOkUnless result Memory }
    {
        let mut instructions = Vec::new(self.alloc);
        let mut lost = None;
        for line in &self.lines {
            match self.resolve(line.action) {
                Some(instruction) => instructions.push(instruction)?,
                None => lost = Some(least(lost, line.number)),
            }
        }
        match lost {
            Some(number) => Ok(Err(number)),
            None => Ok(Ok(Program::new(self.alloc, instructions))),
        }
    }
}

/// The programs of the lines read so far.
#[derive(Drop)]
struct Parser<A: Allocator> {
    alloc: A,
    drafts: Vec<Draft<A>, A>,
}

impl<A: Allocator> Model for Parser<A> {
    ghost use Rattle.std.specs.Prelude.{◌≤◌, List, length};
    ghost use Rattle.ivy_program.specs.stated.ProgramLimits.{most_programs};
    ghost use Rattle.ivy_program.specs.texts.ProgramParts.{Part};

    ghost Value = { List Part };

    ghost view = { λ p. p.drafts.items };

    ghost invariant = { λ p. length p.drafts.items ≤ most_programs };
}

impl<A: Allocator + Copy> Parser<A> {
    fn new(alloc: A) -> Parser<A>
        ensures { result ≡ [] }
    {
        Parser {
            alloc,
            drafts: Vec::new(alloc),
        }
    }

    /// Starts the program of the next node. False where that is another one.
    fn start(&mut self, node: u64, number: LineNumber) -> Result<bool, Fault>
        ensures started { IfOk result (λ ok. Changes ok self.old (joined self.old number (Some (Line.Node node))) self.new) }
        ensures want { IsOkUnless result Memory }
    {
        let started = self.drafts.len();
        if started >= MOST_PROGRAMS || node != started as u64 {
            return Ok(false);
        }
        self.drafts.push(Draft::new(self.alloc))?;
        Ok(true)
    }

    /// Takes in a label of the last program. False where there is none, or the name is there already.
    fn label(&mut self, name: Name, number: LineNumber) -> Result<bool, Fault>
        ensures labelled { IfOk result (λ ok. Changes ok self.old (joined self.old number (Some (Line.Label name))) self.new) }
        ensures want { IsOkUnless result Memory }
    {
        let Some(last) = self.drafts.len().checked_sub(1) else {
            return Ok(false);
        };
        self.drafts[last].label(name)
    }

    /// Takes in an instruction of the last program. False where there is none, or it is full.
    fn add(&mut self, number: LineNumber, action: Action) -> Result<bool, Fault>
        requires { has_place action ≡ false }
        ensures added { IfOk result (λ ok. Changes ok self.old (joined self.old number (Some (Line.Does action))) self.new) }
        ensures want { IsOkUnless result Memory }
    {
        let Some(last) = self.drafts.len().checked_sub(1) else {
            return Ok(false);
        };
        self.drafts[last].add(Numbered { number, action })
    }

    /// Takes in one line. False where it is at fault.
    fn take(&mut self, number: LineNumber, line: Line) -> Result<bool, Fault>
        requires { knows_place line ≡ false }
        ensures taken { IfOk result (λ ok. Changes ok self.old (joined self.old number (Some line)) self.new) }
        ensures want { IsOkUnless result Memory }
    {
        match line {
            Line::Blank => Ok(true),
            Line::Node(node) => self.start(node, number),
            Line::Label(name) => self.label(name, number),
            Line::Does(action) => self.add(number, action),
        }
    }

    /// Reads one line of a text and takes it in. False where it is at fault.
    fn read(&mut self, number: LineNumber, line: &str) -> Result<bool, Fault>
        ensures read { IfOk result (λ ok. TakesIn ok self.old number line.now self.new) }
        ensures want { IsOkUnless result Memory }
    {
        let mut words = [""; MOST_WORDS];
        let Some(count) = few_words(line, &mut words) else {
            return Ok(false);
        };
        match Line::read(&words[..count]) {
            Some(line) => self.take(number, line),
            None => Ok(false),
        }
    }

    /// Whether each jump of each program finds its label.
    fn finds_all(&self) -> bool
        ensures { result ≡ list_all finds_all self.now }
    {
        self.drafts.iter().all(|draft| draft.finds_all())
    }

    /// Reads the lines of a text one after another, and says which is the first at fault. No line is
    /// kept but what it adds. It ends at the first one at fault where each jump before it has found its
    /// label, since no later line can then be the least at fault.
    fn read_all(&mut self, text: &str) -> Result<Option<LineNumber>, Fault>
        requires { self.old ≡ [] }
        ensures read { IfOk result (IsTextReadAs text.now self.new) }
        ensures want { IsOkUnless result Memory }
    {
        let mut at_fault = None;
        for (before, line) in text.lines().enumerate() {
            let number = LineNumber::after(before);
            if !self.read(number, line)? {
                let is_first = at_fault.is_none();
                at_fault = Some(least(at_fault, number));
                if is_first && self.finds_all() {
                    return Ok(at_fault);
                }
            }
        }
        Ok(at_fault)
    }

    /// The programs of the lines, where none was at fault and each jump finds its label [1, 20].
    fn finish(self, out_of_order: Option<LineNumber>) -> Result<Vec<Program<A>, A>, Fault>
        ensures programs { IfOk result (λ programs. ArePrograms programs.items) }
        ensures spelled { IfOk result (λ programs. (lines : List (Option Line)) → IsReadAs lines self out_of_order → SpellsPrograms lines programs.items) }
        ensures refused { IfErr result IsRefusal }
        ensures fault { IfErr result (λ f. (lines : List (Option Line)) → IsReadAs lines self out_of_order → IsFaultOf lines f) }
    {
        let mut at_fault = out_of_order;
        let mut programs = Vec::new(self.alloc);
        for draft in &self.drafts {
            match draft.program()? {
                Ok(program) => programs.push(program)?,
                Err(line) => at_fault = Some(least(at_fault, line)),
            }
        }
        match at_fault {
            Some(line) => Err(Fault::ProgramFault(line.get())),
            None => Ok(programs),
        }
    }
}

/// The programs of a text, at most 32, of the nodes 0, 1, 2 and so on [1, 20].
///
/// The line at fault is the least one, counted from 1.
pub fn parse<A: Allocator + Copy>(alloc: A, text: &str) -> Result<Vec<Program<A>, A>, Fault>
    ensures programs { IfOk result (λ programs. ArePrograms programs.items) }
    ensures spelled { IfOk result (λ programs. SpellsText text.now programs.items) }
    ensures refused { IfErr result IsRefusal }
    ensures fault { IfErr result (IsFaultOfText text.now) }
{
    let mut parser = Parser::new(alloc);
    let at_fault = parser.read_all(text)?;
    parser.finish(at_fault)
}
