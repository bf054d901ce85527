// What a person is told of the commands, on standard error.
ghost use Rattle.std.specs.Prelude.{◌≡◌, ◌≤◌, []};

/// All commands.
pub const ALL: &str = "\
bolt keeps the answer of a vertex program (ranks, labels, distances) current
while the edges of a graph come and go.

  bolt run PROGRAM GRAPH STREAM   the answer on a graph, and then what each
                                  batch of a stream of changes makes of it
  bolt live PROGRAM GRAPH --stream=STREAM [--ask=QUESTIONS]
                                  the batches of several streams as they come,
                                  and replies to questions meanwhile
  bolt once PROGRAM GRAPH         the answer on a graph
  bolt check PROGRAM              whether a program is safe on every graph
  bolt make SEED N M B E graph    a graph for trying things out,
  bolt make SEED N M B E stream   changes to it,
  bolt make SEED N M B E run      and the run of rank over both

PROGRAM is rank, labels2, labels4, dist or wide, or file:NAME for one of yours.
GRAPH has a line \"U V\" or \"U V WEIGHT\" for each edge from vertex U to V.
STREAM has lines \"+ U V\" and \"- U V\", which add and cut an edge, and the line
\"commit\" at the end of each batch.

To see it work without any file:

  bolt make 1 5 8 2 2 run --show=all

And with files:

  bolt make 1 1000 5000 3 20 graph > graph.txt
  bolt make 1 1000 5000 3 20 stream > stream.txt
  bolt run rank graph.txt stream.txt --show=none

A command alone, as in \"bolt run\", tells more of itself, and its options.
";

/// The command `run`, but for its options.
pub const RUN: &str = "  bolt run PROGRAM GRAPH STREAM [options]

PROGRAM is rank, labels2, labels4, dist or wide, or file:NAME.
GRAPH is a file with lines \"U V\" and \"U V WEIGHT\", for edges from U to V, and
\"attr U A\", for the attribute of a vertex.
STREAM is a file with lines \"+ U V\", \"+ U V WEIGHT\", \"- U V\" and \"v U A\", and
\"commit\" at the end of each batch.
";

/// The command `live`.
pub const LIVE: &str = "  bolt live PROGRAM GRAPH --stream=STREAM [options]

PROGRAM is rank, labels2, labels4, dist or wide, or file:NAME.
GRAPH and STREAM are files as of bolt run. The batches of each stream are made
in order; those of several streams come in between one another, as it happens.

Options stand after all other words:
  --stream=STREAM    a stream, 1 to 16 times
  --ask=QUESTIONS    a file of questions, up to 16 times: lines \"value V\",
                     \"total L\", \"atleast L X\" and \"prefix\", each answered
                     while batches are made, with how many were accepted by then
  --cut=K            the last iteration of a run that is kept, 1 to 64; if it
                     isn't given, the program's last one or 10
  --vertical=off     keeps iterations also where a vertex has come to rest
  --workers=W        how many workers compute, 1 to 64; 1 if it isn't given
Each of the last three is given at most once.
";

/// The command `once`.
pub const ONCE: &str = "  bolt once PROGRAM GRAPH [options]

PROGRAM is rank, labels2, labels4, dist or wide, or file:NAME.
GRAPH is a file with lines \"U V\" and \"U V WEIGHT\", for edges from U to V, and
\"attr U A\", for the attribute of a vertex.

Options stand after all other words, each at most once:
  --workers=W   how many workers compute, 1 to 64; 1 if it isn't given
  --show=none   leaves the values of vertices out
";

/// The command `check`.
pub const CHECK: &str = "  bolt check PROGRAM

PROGRAM is rank, labels2, labels4, dist or wide, or file:NAME.
";

/// The command `make`, but for its options.
pub const MAKE: &str = "  bolt make SEED N M B E graph           a graph with N vertices
  bolt make SEED N M B E stream          B batches of E edits of this graph
  bolt make SEED N M B E run [options]   the run of rank over both

SEED is any number below 2^64: the same words always make the same graph.
N is 1 to 1000000. M, how many pairs of vertices are drawn as edges, is 1 to
4000000. B is 0 to 100000, E is 1 to 1000000, and M + B * E at most 8000000.
";

/// The options of `run`, which `make` has with its last word `run`.
pub const OPTIONS: &str = "
Options stand after all other words, each at most once:
  --cut=K          the last iteration of a run that is kept, 1 to 64; if it
                   isn't given, the program's last one or 10
  --vertical=off   keeps iterations also where a vertex has come to rest
  --workers=W      how many workers compute, 1 to 64; 1 if it isn't given
  --show=none      leaves the values of vertices out; make does so unless
                   --show=all is given
";

/// What a command is, and its options. All commands, for a word that is none.
pub fn usage(command: &str) -> [&'static str; 2] {
    match command {
        "run" => [RUN, OPTIONS],
        "live" => [LIVE, ""],
        "once" => [ONCE, ""],
        "check" => [CHECK, ""],
        "make" => [MAKE, OPTIONS],
        _ => [ALL, ""],
    }
}

/// Why a command ended early, by a status that no word and no file decides.
pub fn reason(status: u8) -> &'static str
    ensures decided { status ≤ 5 → result.now ≡ [] }
{
    match status {
        6 => "bolt: not all of the text could be written to standard output.\n",
        7 => "bolt: there isn't enough memory.\n",
        8 => "bolt: a file gave 2^40 bytes and didn't end.\n",
        9 => "bolt: the system doesn't give the words, as where one isn't UTF-8.\n",
        _ => "",
    }
}
