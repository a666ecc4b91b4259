//! A run as a picture: a line for each node, from top to bottom, and an arrow for each string.

use crate::access::{Access, Accesses};
use crate::head::RunHead;
use crate::labels::Labels;
use crate::log::{Happening, RunLog};
use crate::marks::{Marks, Spot, Way, lane, row};
use crate::part::{Drawn, Part};
use ivy_link::Verdict;
use ivy_model::Record;
use ivy_texts::{CallText, MoveText, ReplyText, kind_name};
use std::alloc::{AllocError, Global};
use std::io::{self, Write};

/// What is to be drawn.
#[derive(Clone, Copy)]
pub struct Chart {
    /// How many nodes there are.
    pub nodes: u64,
    /// The page whose access the lines show.
    pub page: u32,
    /// Which moves are drawn.
    pub part: Part,
}

/// How many letters a line of the legend has at most.
const LEGEND: u64 = 80;

/// How wide a bold letter is at most.
const LETTER: u64 = 7;

/// Right of what stands beside the lines.
const MARGIN: u64 = 16;

/// The look of everything, the tip of arrows, and the ground.
const STYLE: &str =
    "<style>text{font:11px sans-serif;paint-order:stroke;stroke:#fff;stroke-width:3px}\
.move{fill:#777}.name{font-weight:bold;font-size:13px}.reply{fill:#060;font-weight:bold}\
.nil{stroke:#ccc;stroke-width:2}.read{stroke:#5a9bd4;stroke-width:7}.write{stroke:#e8743b;stroke-width:7}\
.way{stroke:#222;fill:none}.again{stroke:#999;stroke-dasharray:6 3;fill:none}\
.early{stroke:#b0f;stroke-dasharray:2 3;fill:none}.lost{stroke:#c00;stroke-dasharray:6 3;fill:none}\
.cross{fill:#c00;font-weight:bold}.old{fill:#888}</style>\n\
<defs><marker id=\"tip\" viewBox=\"0 0 10 10\" refX=\"10\" refY=\"5\" markerWidth=\"7\" \
markerHeight=\"7\" orient=\"auto\"><path d=\"M0 0L10 5L0 10z\"/></marker></defs>\n\
<rect width=\"100%\" height=\"100%\" fill=\"#fff\"/>\n";

/// What dashes mean.
const DASHES: &str =
    "<text x=\"8\" y=\"34\">Dashed: grey delivered again, red lost. Dotted: came before its turn.</text>\n";

/// The name of the look of a way.
fn look_of(way: &Way) -> &'static str {
    match way.heard {
        None => "lost",
        Some(Verdict::Next) => "way",
        Some(Verdict::Ahead) => "early",
        Some(Verdict::Repeat | Verdict::NotMine) => "again",
    }
}

/// The name of the look of an access.
fn look_of_access(access: Access) -> &'static str {
    match access {
        Access::Nil => "nil",
        Access::Read => "read",
        Access::Write => "write",
    }
}

/// Draws a line, which ends in this text.
fn draw_line<W: Write>(look: &str, from: Spot, to: Spot, end: &str, out: &mut W) -> io::Result<()> {
    writeln!(
        out,
        "<line class=\"{look}\" x1=\"{}\" y1=\"{}\" x2=\"{}\" y2=\"{}\"{end}/>",
        from.x, from.y, to.x, to.y
    )
}

/// Begins a text at a spot.
fn begin_text<W: Write>(look: &str, at: Spot, out: &mut W) -> io::Result<()> {
    let Spot { x, y } = at;
    write!(out, "<text class=\"{look}\" x=\"{x}\" y=\"{y}\">")
}

/// The name of a string: its kind, its page, and whether it was sent again.
fn name_of(alloc: Global, way: &Way, head: &RunHead) -> Result<String, AllocError> {
    let (kind, note) = (
        kind_name(head.kind),
        if way.is_again { " again" } else { "" },
    );
    match head.page() {
        Some(page) => format!(in alloc; "{kind} {page}{note}"),
        None => format!(in alloc; "{kind}{note}"),
    }
}

/// The name of a string, and where it stands, unless it would lie over another text.
#[derive(Drop)]
struct Label {
    at: Option<Spot>,
    name: String,
}

/// Draws the name of a string beside its way, where it has a place.
fn draw_name<W: Write>(way: &Way, label: &Label, out: &mut W) -> io::Result<()> {
    let Some(at) = label.at else {
        return Ok(());
    };
    let look = if look_of(way) == "again" { "old" } else { "" };
    begin_text(look, at, out)?;
    writeln!(out, "{}</text>", label.name.as_str())
}

/// Where the cross of a lost string stands.
fn cross_of(way: &Way) -> Spot {
    let tip = way.tip();
    Spot {
        x: tip.x.saturating_sub(4),
        y: tip.y.saturating_add(4),
    }
}

/// Draws the way of a string that is lost: a line that ends in a cross.
fn draw_lost<W: Write>(way: &Way, out: &mut W) -> io::Result<()> {
    draw_line(look_of(way), way.from, way.tip(), "", out)?;
    begin_text("cross", cross_of(way), out)?;
    out.write_all("×</text>\n".as_bytes())
}

/// Draws the way of a string: an arrow, where it is not lost.
fn draw_way<W: Write>(way: &Way, out: &mut W) -> io::Result<()> {
    if way.heard.is_some() {
        draw_line(
            look_of(way),
            way.from,
            way.to,
            " marker-end=\"url(#tip)\"",
            out,
        )
    } else {
        draw_lost(way, out)
    }
}

/// Draws the way of a string. A name that has no place is told where one points at the way.
fn draw_named<W: Write>(way: &Way, label: &Label, out: &mut W) -> io::Result<()> {
    if label.at.is_some() {
        return draw_way(way, out);
    }
    writeln!(out, "<g><title>{}</title>", label.name.as_str())?;
    draw_way(way, out)?;
    out.write_all(b"</g>\n")
}

/// Draws all ways, and above them their names.
fn draw_ways<W: Write>(marks: &Marks, labels: &[Label], out: &mut W) -> io::Result<()> {
    for (way, label) in marks.ways.iter().zip(labels) {
        draw_named(way, label, out)?;
    }
    for (way, label) in marks.ways.iter().zip(labels) {
        draw_name(way, label, out)?;
    }
    Ok(())
}

/// Draws the rest of the line of a node, in the colour of its access.
fn draw_lane<W: Write>(node: u64, access: Access, rows: (u64, u64), out: &mut W) -> io::Result<()> {
    let x = lane(node);
    let from = Spot { x, y: row(rows.0) };
    let to = Spot { x, y: row(rows.1) };
    draw_line(look_of_access(access), from, to, "", out)
}

/// A line that is not drawn to its end yet: since which row it has its colour.
#[derive(Clone, Copy)]
struct Since {
    row: u64,
    access: Access,
}

/// The lines of the nodes, as far as they are drawn.
#[derive(Drop)]
struct Lanes {
    accesses: Accesses,
    since: Vec<Since>,
}

impl Lanes {
    /// Nothing is drawn yet.
    fn of(alloc: Global, chart: Chart) -> Result<Lanes, AllocError> {
        let nodes = usize::try_from(chart.nodes).unwrap_or(0);
        let accesses = Accesses::new(alloc, chart.page, nodes)?;
        match since_of(alloc, &accesses, nodes) {
            Ok(since) => Ok(Lanes { accesses, since }),
            Err(error) => Err(error),
        }
    }
}

/// The colours with which the lines begin.
fn since_of(alloc: Global, accesses: &Accesses, nodes: usize) -> Result<Vec<Since>, AllocError> {
    let mut since = Vec::new(alloc);
    for node in 0..nodes {
        let access = accesses.of(node);
        since.push(Since { row: 0, access })?;
    }
    Ok(since)
}

/// Draws the line of a node up to a row, where its colour is another one from there on.
fn change<W: Write>(line: &mut Since, node: u64, to: Since, out: &mut W) -> io::Result<()> {
    if line.access == to.access {
        return Ok(());
    }
    draw_lane(node, line.access, (line.row, to.row), out)?;
    *line = to;
    Ok(())
}

/// Draws the lines of the nodes to their ends.
fn end_lanes<W: Write>(since: &[Since], height: u64, out: &mut W) -> io::Result<()> {
    let end = height.saturating_add(1);
    for node in 0..since.len() {
        let line = since[node];
        draw_lane(node as u64, line.access, (line.row, end), out)?;
    }
    Ok(())
}

/// Draws the lines of the nodes, coloured by their access to the page.
fn draw_lanes<W: Write>(
    lanes: &mut Lanes,
    log: &RunLog,
    marks: &Marks,
    out: &mut W,
) -> io::Result<()> {
    for place in 0..log.happenings.len() {
        let happening = &log.happenings[place];
        lanes.accesses.follow(log, happening);
        let to = Since {
            row: marks.row_of(place),
            access: lanes.accesses.of(happening.node as usize),
        };
        if let Some(line) = lanes.since.get_mut(happening.node as usize) {
            change(line, happening.node, to, out)?;
        }
    }
    end_lanes(&lanes.since, marks.height, out)
}

/// Draws what a node was answered.
fn draw_reply<W: Write>(record: Record, at: Spot, out: &mut W) -> io::Result<()> {
    begin_text("reply", at, out)?;
    let (call, reply) = (CallText(record.call), ReplyText(record.reply));
    writeln!(out, "{call} = {reply}</text>")
}

/// Draws a move left of the lines, and what its node was answered beside its line.
fn draw_move<W: Write>(number: u64, happening: &Happening, y: u64, out: &mut W) -> io::Result<()> {
    begin_text("move", Spot { x: 8, y }, out)?;
    writeln!(out, "{number} {}</text>", MoveText(happening.step))?;
    match happening.record {
        None => Ok(()),
        Some(record) => {
            let x = lane(happening.node).saturating_add(8);
            draw_reply(record, Spot { x, y }, out)
        }
    }
}

/// How low a text stands beside a move.
fn text_height(marks: &Marks, place: usize) -> u64 {
    row(marks.row_of(place)).saturating_add(4)
}

/// Draws the moves of which something is to be seen.
fn draw_texts<W: Write>(log: &RunLog, marks: &Marks, out: &mut W) -> io::Result<()> {
    for place in 0..log.happenings.len() {
        let happening = &log.happenings[place];
        if marks.is_drawn(place) {
            let y = text_height(marks, place);
            draw_move((place as u64).saturating_add(1), happening, y, out)?;
        }
    }
    Ok(())
}

/// How many letters stand beside the line of a node that was answered so.
fn letters_of(alloc: Global, record: Record) -> Result<u64, AllocError> {
    let (call, reply) = (CallText(record.call), ReplyText(record.reply));
    Ok(format!(in alloc; "{call} = {reply}")?.len() as u64)
}

/// How many letters a move stands in, with its number.
fn letters_of_move(alloc: Global, number: u64, happening: &Happening) -> Result<u64, AllocError> {
    Ok(format!(in alloc; "{number} {}", MoveText(happening.step))?.len() as u64)
}

/// A reply that is drawn: where it stands, and how many letters it has.
#[derive(Clone, Copy)]
struct Beside {
    at: Spot,
    letters: u64,
}

/// The reply that is drawn beside a move, where there is one.
fn reply_at(
    alloc: Global,
    marks: &Marks,
    place: usize,
    happening: &Happening,
) -> Result<Option<Beside>, AllocError> {
    match happening.record {
        Some(record) if marks.is_drawn(place) => Ok(Some(Beside {
            at: Spot {
                x: lane(happening.node).saturating_add(8),
                y: text_height(marks, place),
            },
            letters: letters_of(alloc, record)?,
        })),
        _ => Ok(None),
    }
}

/// The replies that are drawn.
fn replies_of(alloc: Global, marks: &Marks, log: &RunLog) -> Result<Vec<Beside>, AllocError> {
    let mut replies = Vec::new(alloc);
    for place in 0..log.happenings.len() {
        if let Some(reply) = reply_at(alloc, marks, place, &log.happenings[place])? {
            replies.push(reply)?;
        }
    }
    Ok(replies)
}

/// Where the picture ends at the right: behind the last line, the legend and what stands beside the lines.
fn width_of(chart: Chart, replies: &[Beside]) -> u64 {
    let mut width = lane(chart.nodes).max(LEGEND * LETTER + MARGIN);
    for reply in replies {
        let end = reply
            .at
            .x
            .saturating_add(reply.letters.saturating_mul(LETTER));
        width = width.max(end.saturating_add(MARGIN));
    }
    width
}

/// Notes the moves that are drawn.
fn take_moves(
    alloc: Global,
    marks: &Marks,
    log: &RunLog,
    taken: &mut Labels,
) -> Result<(), AllocError> {
    for place in 0..log.happenings.len() {
        if marks.is_drawn(place) {
            let at = Spot {
                x: 8,
                y: text_height(marks, place),
            };
            let number = (place as u64).saturating_add(1);
            taken.put(at, letters_of_move(alloc, number, &log.happenings[place])?)?;
        }
    }
    Ok(())
}

/// Notes the replies, whose letters are bold and so wider, and the crosses.
fn take_rest(marks: &Marks, replies: &[Beside], taken: &mut Labels) -> Result<(), AllocError> {
    for reply in replies {
        taken.put(reply.at, reply.letters.saturating_add(reply.letters / 6))?;
    }
    for way in marks.ways.iter() {
        if way.heard.is_none() {
            taken.put(cross_of(way), 1)?;
        }
    }
    Ok(())
}

/// Where no name may stand: at moves, replies and crosses.
fn taken_of(
    alloc: Global,
    marks: &Marks,
    replies: &[Beside],
    log: &RunLog,
) -> Result<Labels, AllocError> {
    let mut taken = Labels::new(alloc, &marks.ways)?;
    take_moves(alloc, marks, log, &mut taken)?;
    take_rest(marks, replies, &mut taken)?;
    Ok(taken)
}

/// The names of all strings, and where they stand.
fn labels_of(
    alloc: Global,
    marks: &Marks,
    replies: &[Beside],
    log: &RunLog,
) -> Result<Vec<Label>, AllocError> {
    let mut taken = taken_of(alloc, marks, replies, log)?;
    let mut labels = Vec::new(alloc);
    for place in 0..marks.ways.len() {
        let way = &marks.ways[place];
        let name = match log.strings.get(way.string) {
            Some(head) => name_of(alloc, way, head)?,
            None => String::new(alloc),
        };
        let at = taken.place(&marks.ways, place, name.len() as u64)?;
        labels.push(Label { at, name })?;
    }
    Ok(labels)
}

/// Begins the picture: its size, and what the lines mean.
fn begin<W: Write>(chart: Chart, size: Spot, out: &mut W) -> io::Result<()> {
    let (width, height, page) = (size.x, size.y, chart.page);
    write!(
        out,
        "<svg xmlns=\"http://www.w3.org/2000/svg\" width=\"{width}\" height=\"{height}\">\n"
    )?;
    out.write_all(STYLE.as_bytes())?;
    writeln!(
        out,
        "<text x=\"8\" y=\"18\">Lines: access to page {page}, orange to write, blue to read, grey none.</text>"
    )?;
    out.write_all(DASHES.as_bytes())
}

/// Draws the names of the nodes.
fn draw_nodes<W: Write>(nodes: u64, out: &mut W) -> io::Result<()> {
    for node in 0..nodes {
        let x = lane(node).saturating_sub(20);
        begin_text("name", Spot { x, y: 64 }, out)?;
        writeln!(out, "node {node}</text>")?;
    }
    Ok(())
}

/// What is drawn of a run.
#[derive(Drop)]
pub struct Picture {
    chart: Chart,
    /// The corner at the right, below.
    size: Spot,
    marks: Marks,
    labels: Vec<Label>,
    lanes: Lanes,
}

impl Picture {
    /// What is to be drawn of what was seen of a run.
    pub fn of(alloc: Global, chart: Chart, log: &RunLog) -> Result<Picture, AllocError> {
        let drawn = Drawn::of(alloc, chart.part, log)?;
        let marks = Marks::of(alloc, log, &drawn)?;
        let replies = replies_of(alloc, &marks, log)?;
        let labels = labels_of(alloc, &marks, &replies, log)?;
        let width = width_of(chart, &replies);
        let lanes = Lanes::of(alloc, chart)?;
        let size = Spot {
            x: width,
            y: row(marks.height.saturating_add(2)),
        };
        Ok(Picture {
            chart,
            size,
            marks,
            labels,
            lanes,
        })
    }

    /// How high the picture is, in pixels.
    pub fn height(&self) -> u64 {
        self.size.y
    }

    /// Draws what was seen of the run, as SVG: lines first, so that what is read stands above them.
    pub fn draw<W: Write>(mut self, log: &RunLog, out: &mut W) -> io::Result<()> {
        self.draw_all(log, out)
    }

    fn draw_all<W: Write>(&mut self, log: &RunLog, out: &mut W) -> io::Result<()> {
        begin(self.chart, self.size, out)?;
        draw_nodes(self.chart.nodes, out)?;
        draw_lanes(&mut self.lanes, log, &self.marks, out)?;
        draw_ways(&self.marks, &self.labels, out)?;
        draw_texts(log, &self.marks, out)?;
        out.write_all(b"</svg>\n")
    }
}
