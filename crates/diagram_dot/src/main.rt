// Draws a table of at most 4,096 bytes, read from standard input, as a graph for Graphviz: a row for each height that has
// nodes, from the top. Then-edges are solid, else-edges dashed, and flagged (complemented) edges end in a dot.
#![tactic(auto)]

ghost use Rattle.std.specs.Prelude.{◌≤◌, ◌<◌};
ghost use Rattle.diagram.specs.Ordered.{HasDiagram};

use diagram::{Edge, Node};
use std::fmt::Display;
use std::io;
use std::io::Print;

// The beginning of every graph: its looks, where it is entered, and the sink.
const HEAD: &str = "digraph table {
  bgcolor = white;
  nodesep = 0.3;
  ranksep = 0.35;
  node [shape = box, style = rounded, height = 0.3, margin = \"0.08,0.04\"];
  node [fontname = Helvetica, fontsize = 12];
  edge [arrowsize = 0.7];
  entry [shape = point, width = 0.08];
  v0 [style = solid, label = \"permitted\"];
";

// An edge, with where it comes from.
fn draw_edge(rt: &impl Print, from: &impl Display, edge: Edge, style: &str) -> io::Result<()> {
    let node = edge.node().0;
    let head = if edge.flagged() {
        ", arrowhead = dot"
    } else {
        ""
    };
    println!(rt; "  {from} -> v{node} [style = {style}{head}];")
}

// An accepted table.
#[derive(Clone, Copy)]
struct Drawing<'a> {
    table: &'a [u8],
    settings: u64,
    nodes: usize,
    ghost holds: { HasDiagram table.now settings nodes },
}

impl Drawing<'_> {
    // Whether nodes k and k + 1 are in one row.
    fn shares_row(&self, k: usize) -> bool {
        let table = self.table;
        k < self.nodes
            && diagram::height_at(table, Node(k)) == diagram::height_at(table, Node(k + 1))
    }

    // The setting that node k asks.
    fn setting_of(&self, k: usize) -> u64
        requires { (0 < k) × (k ≤ self.now.nodes) }
    {
        self.settings - diagram::height_at(self.table, Node(k)) + 1
    }

    // Node k in its row, which begins at the greatest node of the height and ends at the least.
    fn draw_node(&self, rt: &impl Print, k: usize) -> io::Result<()>
        requires { (0 < k) × (k ≤ self.now.nodes) }
    {
        if !self.shares_row(k) {
            print!(rt; "  {{ rank = same;")?;
        }
        let setting = self.setting_of(k);
        print!(rt; " v{k} [label = \"setting {setting}\"];")?;
        if !self.shares_row(k - 1) {
            println!(rt; " }}")?;
        }
        Ok(())
    }

    // The rows.
    fn draw_nodes(&self, rt: &impl Print) -> io::Result<()> {
        for k in (1..=self.nodes).rev() {
            self.draw_node(rt, k)?;
        }
        Ok(())
    }

    // The edges of node k. Where it is the last of its row and has no edge to the first of the next, an unseen one keeps the rows in order.
    fn draw_edges_of(&self, rt: &impl Print, k: usize) -> io::Result<()>
        requires { (0 < k) × (k ≤ self.now.nodes) }
    {
        let from = format_args!("v{k}");
        let record = diagram::record_at(self.table, Node(k));
        draw_edge(rt, &from, record.high, "solid")?;
        draw_edge(rt, &from, record.low, "dashed")?;
        let next = Node(k - 1);
        if !self.shares_row(k - 1) && record.high.node() != next && record.low.node() != next {
            draw_edge(rt, &from, Edge::new(next, false), "invis")?;
        }
        Ok(())
    }

    // The edges, the root edge first.
    fn draw_edges(&self, rt: &impl Print) -> io::Result<()> {
        draw_edge(rt, &"entry", diagram::header_of(self.table).root, "solid")?;
        for k in (1..=self.nodes).rev() {
            self.draw_edges_of(rt, k)?;
        }
        Ok(())
    }

    // The graph.
    fn draw(&self, rt: &impl Print) -> io::Result<()> {
        print!(rt; "{HEAD}")?;
        self.draw_nodes(rt)?;
        self.draw_edges(rt)?;
        println!(rt; "}}")
    }
}

// The graph of a table. A sheet of 512 places serves every table of 4,096 bytes.
fn draw(rt: &impl Print, table: &[u8]) -> io::Result<()> {
    let mut sheet = [0; 4096];
    match checking::check(table, &mut sheet) {
        Ok(shape) => {
            let drawing = Drawing {
                table,
                settings: shape.settings,
                nodes: shape.nodes,
            };
            drawing.draw(rt)
        }
        Err(refusal) => println!(rt; "{refusal}"),
    }
}

fn main(rt: HostRuntime) -> io::Result<()> {
    let mut memory = [0; 4097];
    if let Some(length) = programs::read_table(&rt, &mut memory)? {
        draw(&rt, &memory[..length])?;
    }
    Ok(())
}
