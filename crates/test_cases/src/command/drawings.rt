//! Cases of `dot`, with an assignment and without one.

use crate::command::{Case, PlainCommand};
use crate::declarations::{CHAIN, GROUPED, LANES, TWO, UNSURE};
use wq_commands::End;

/// The drawing of the plan of `TWO`.
const DRAWN_PLAN: &str = "\
digraph wqplan {
  graph [label=\"plan of 2 workqueues, 1 wait in bold\
\\lBold: the chain that needs so many workqueues.\\l\", labelloc=t, labeljust=l, rankdir=LR, nodesep=0.15, ranksep=1, \
    fontname=\"sans-serif\"];
  node [shape=box, style=filled, fillcolor=white, height=0.3, fontname=\"sans-serif\", fontsize=12];
  edge [arrowsize=0.7];
  subgraph \"cluster wq 0\" {
    graph [label=\"\", style=filled, color=gray92]; \"wq 0\" [shape=plaintext, style=\"\", fontsize=14];
    \"b\";
  }
  subgraph \"cluster wq 1\" {
    graph [label=\"\", style=filled, color=gray92]; \"wq 1\" [shape=plaintext, style=\"\", fontsize=14];
    \"a\";
  }
  \"a\" -> \"b\" [style=bold];
}
";

/// The drawing of the plan of `UNSURE`.
const DRAWN_UNSURE: &str = "\
digraph wqplan {
  graph [label=\"plan of 2 workqueues, 1 wait in bold, 1 not sure\
\\lBold: the chain that needs so many workqueues.\\lDotted: not sure.\\l\", labelloc=t, labeljust=l, rankdir=LR, \
    nodesep=0.15, ranksep=1, fontname=\"sans-serif\"];
  node [shape=box, style=filled, fillcolor=white, height=0.3, fontname=\"sans-serif\", fontsize=12];
  edge [arrowsize=0.7];
  subgraph \"cluster wq 0\" {
    graph [label=\"\", style=filled, color=gray92]; \"wq 0\" [shape=plaintext, style=\"\", fontsize=14];
    \"b\";
  }
  subgraph \"cluster wq 1\" {
    graph [label=\"\", style=filled, color=gray92]; \"wq 1\" [shape=plaintext, style=\"\", fontsize=14];
    \"a\";
  }
  \"a\" -> \"b\" [style=\"bold,dotted\"];
}
";

/// The drawing of `GROUPED`, each group on a workqueue of its own.
const DRAWN_GROUPS: &str = "\
digraph wqplan {
  graph [label=\"every assignment can hang, 2 waits in red\
\\lRed: while memory is short, a worker may wait for work\\lthat only it, or one that waits for it, can do.\
\\l\", labelloc=t, labeljust=l, rankdir=LR, nodesep=0.15, ranksep=1, fontname=\"sans-serif\"];
  node [shape=box, style=filled, fillcolor=white, height=0.3, fontname=\"sans-serif\", fontsize=12];
  edge [arrowsize=0.7];
  subgraph \"cluster wq 0\" {
    graph [label=\"\", style=filled, color=gray92]; \"wq 0\" [shape=plaintext, style=\"\", fontsize=14];
    subgraph \"cluster ordered a\" {
      graph [label=\"\", style=dashed, color=black]; \"ordered a\" [label=\"ordered\", shape=plaintext, style=\"\"];
      \"a\";
      \"d\";
    }
  }
  subgraph \"cluster wq 1\" {
    graph [label=\"\", style=filled, color=gray92]; \"wq 1\" [shape=plaintext, style=\"\", fontsize=14];
    subgraph \"cluster ordered b\" {
      graph [label=\"\", style=dashed, color=black]; \"ordered b\" [label=\"ordered\", shape=plaintext, style=\"\"];
      \"b\";
      \"c\";
    }
  }
  \"a\" -> \"b\" [color=red, penwidth=4];
  \"c\" -> \"d\" [color=red, penwidth=4];
}
";

/// The drawing of `TWO` on three workqueues, of which one is empty.
const DRAWN_SAFE: &str = "\
digraph wqplan {
  graph [label=\"safe\", labelloc=t, labeljust=l, rankdir=LR, nodesep=0.15, ranksep=1, fontname=\"sans-serif\"];
  node [shape=box, style=filled, fillcolor=white, height=0.3, fontname=\"sans-serif\", fontsize=12];
  edge [arrowsize=0.7];
  subgraph \"cluster wq 0\" {
    graph [label=\"\", style=filled, color=gray92]; \"wq 0\" [shape=plaintext, style=\"\", fontsize=14];
    \"b\";
  }
  subgraph \"cluster wq 1\" {
    graph [label=\"\", style=filled, color=gray92]; \"wq 1\" [shape=plaintext, style=\"\", fontsize=14];
  }
  subgraph \"cluster wq 2\" {
    graph [label=\"\", style=filled, color=gray92]; \"wq 2\" [shape=plaintext, style=\"\", fontsize=14];
    \"a\";
  }
  \"a\" -> \"b\";
}
";

/// The drawing of `CHAIN` on `LANES`.
const DRAWN_LANES: &str = "\
digraph wqplan {
  graph [label=\"can hang, 2 waits in red\
\\lRed: while memory is short, a worker may wait for work\\lthat only it, or one that waits for it, can do.\
\\l\", labelloc=t, labeljust=l, rankdir=LR, nodesep=0.15, ranksep=1, fontname=\"sans-serif\"];
  node [shape=box, style=filled, fillcolor=white, height=0.3, fontname=\"sans-serif\", fontsize=12];
  edge [arrowsize=0.7];
  subgraph \"cluster wq 0\" {
    graph [label=\"\", style=filled, color=gray92]; \"wq 0\" [shape=plaintext, style=\"\", fontsize=14];
    \"a\";
    \"c\";
  }
  subgraph \"cluster wq 1\" {
    graph [label=\"\", style=filled, color=gray92]; \"wq 1\" [shape=plaintext, style=\"\", fontsize=14];
    \"b\";
  }
  \"a\" -> \"b\" [color=red, penwidth=4];
  \"b\" -> \"c\" [color=red, penwidth=4];
}
";

/// The drawing of a group whose first item waits for the second, and for both, on lines with comments.
const DRAWN_COMMENTS: &str = "\
digraph wqplan {
  graph [label=\"every assignment can hang, 2 waits in red, 1 in bold\
\\lRed: while memory is short, a worker may wait for work\\lthat only it, or one that waits for it, can do.\
\\lBold: enough to hang it, in the fewest steps.\
\\l\", labelloc=t, labeljust=l, rankdir=LR, nodesep=0.15, ranksep=1, fontname=\"sans-serif\"];
  node [shape=box, style=filled, fillcolor=white, height=0.3, fontname=\"sans-serif\", fontsize=12];
  edge [arrowsize=0.7];
  subgraph \"cluster wq 0\" {
    graph [label=\"\", style=filled, color=gray92]; \"wq 0\" [shape=plaintext, style=\"\", fontsize=14];
    subgraph \"cluster ordered a\" {
      graph [label=\"\", style=dashed, color=black]; \"ordered a\" [label=\"ordered\", shape=plaintext, style=\"\"];
      \"a\";
      \"b\";
    }
  }
  \"a\" -> \"b\" [color=red, style=bold] [edgetooltip=\"file.c:1 \\\"why\\\" \\\\ &amp; ??\"];
  \"a\" -> \"a\" [color=red, penwidth=4] [arrowhead=odiamond] [edgetooltip=\"another\"];
}
";

pub(crate) const DRAWINGS: &[Case] = &[
    Case {
        name: "a drawing of a plan",
        command: PlainCommand::OwnDot,
        texts: &[TWO],
        end: End::Good,
        answer: DRAWN_PLAN,
        said: "",
    },
    Case {
        name: "a drawing of a circle of groups",
        command: PlainCommand::OwnDot,
        texts: &[GROUPED],
        end: End::Good,
        answer: DRAWN_GROUPS,
        said: "",
    },
    Case {
        name: "a drawing with comments",
        command: PlainCommand::OwnDot,
        texts: &[
            "item a # an item\nitem b\nordered a b\nflush a b # file.c:1 \"why\" \\ & é\nflushwq a a #another\n",
        ],
        end: End::Good,
        answer: DRAWN_COMMENTS,
        said: "",
    },
    Case {
        name: "a drawing of a declaration that is none",
        command: PlainCommand::OwnDot,
        texts: &["items a\n"],
        end: End::Refused,
        answer: "refused 4 line 1\n",
        said: "\
d:1:1: `items` isn't a directive [refused 4, `wqplan explain 4`]
    items a
    ^^^^^ did you mean `item`?
",
    },
    Case {
        name: "a drawing of safe lanes",
        command: PlainCommand::Dot,
        texts: &[TWO, "wq 0 b\nwq 1\nwq 2 a\n"],
        end: End::Good,
        answer: DRAWN_SAFE,
        said: "",
    },
    Case {
        name: "a drawing of lanes that hang",
        command: PlainCommand::Dot,
        texts: &[CHAIN, LANES],
        end: End::Good,
        answer: DRAWN_LANES,
        said: "",
    },
    Case {
        name: "a drawing of lanes that are none",
        command: PlainCommand::Dot,
        texts: &[TWO, "wq 1 a b\n"],
        end: End::Refused,
        answer: "refused 43 line 1\n",
        said: "\
c:1:4: expected `wq 0` [refused 43, `wqplan explain 43`]
    wq 1 a b
       ^ workqueues are numbered from 0, in order
",
    },
    Case {
        name: "a drawing of a plan of an unsure line",
        command: PlainCommand::OwnDot,
        texts: &[UNSURE],
        end: End::Good,
        answer: DRAWN_UNSURE,
        said: "",
    },
];
