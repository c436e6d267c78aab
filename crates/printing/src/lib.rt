#![tactic(auto)]

// What is printed for a survey file: its listing, or the first refusal.
ghost use Rattle.std.specs.Prelude.{◌≡◌, length};
ghost use Rattle.tree.specs.Columns.{columns, node_room};
ghost use Rattle.text.specs.Listing.{text_answer, text_left};
ghost use Rattle.printing.specs.Printed.{columns_text, survey_text_in, survey_text, file_text};

use space::Box;
use std::io;
use std::io::Print;
use survey::Survey;

// Writes the text of a tree with its targets, with room for 8,192 entries a list and for the counts of 2,048 nodes.
fn list_columns(
    b: Box,
    sources: usize,
    key: &[u64],
    own: &[usize],
    begin: &[usize],
    total: &[usize],
    targets: &[f64],
    out: &mut [u8],
) -> Option<usize>
    ensures answer { result ≡ text_answer (length out.old)
        (columns_text b (columns key.now own.now begin.now total.now) targets.now sources) }
    ensures text { out.new ≡ text_left (length out.old)
        (columns_text b (columns key.now own.now begin.now total.now) targets.now sources) }
{
    let mut u_starts = [0usize; 2049];
    let mut u_keys = [0u64; 8192];
    let mut v_starts = [0usize; 2049];
    let mut v_keys = [0u64; 8192];
    let mut counts = [0usize; 2048];
    report::list_tree(
        b,
        sources,
        key,
        own,
        begin,
        total,
        targets,
        &mut u_starts,
        &mut u_keys,
        &mut v_starts,
        &mut v_keys,
        &mut counts,
        out,
    )
}

// Builds the tree of a survey in the lent columns, and writes its text.
fn list_built(
    survey: Survey,
    sources: &[f64],
    targets: &[f64],
    work: &mut [u64],
    indices: &mut [usize],
    key: &mut [u64],
    own: &mut [usize],
    begin: &mut [usize],
    total: &mut [usize],
    out: &mut [u8],
) -> Option<usize>
    ensures answer { result ≡ text_answer (length out.old) (survey_text_in (length work.old) (length indices.old)
        (node_room (length key.old) (length own.old) (length begin.old) (length total.old)) survey sources.now targets.now) }
    ensures text { out.new ≡ text_left (length out.old) (survey_text_in (length work.old) (length indices.old)
        (node_room (length key.old) (length own.old) (length begin.old) (length total.old)) survey sources.now targets.now) }
{
    let b = survey.b;
    let built = build::build_tree(
        b,
        sources,
        targets,
        survey.limit,
        survey.order,
        survey.keep,
        true,
        work,
        indices,
        key,
        own,
        begin,
        total,
    );
    match built {
        Err(refusal) => text::write_refusal(refusal, out),
        Ok(grown) => {
            let nodes = grown.nodes;
            list_columns(
                b,
                survey.sources,
                &key[..nodes],
                &own[..nodes],
                &begin[..nodes],
                &total[..nodes],
                targets,
                out,
            )
        }
    }
}

// The same with room for 2,048 nodes.
fn list_survey(survey: Survey, sources: &[f64], targets: &[f64], out: &mut [u8]) -> Option<usize>
    ensures answer { result ≡ text_answer (length out.old) (survey_text survey sources.now targets.now) }
    ensures text { out.new ≡ text_left (length out.old) (survey_text survey sources.now targets.now) }
{
    let mut work = [0u64; 8176];
    let mut indices = [0usize; 4088];
    let mut key = [0u64; 2048];
    let mut own = [0usize; 2048];
    let mut begin = [0usize; 2048];
    let mut total = [0usize; 2048];
    list_built(
        survey,
        sources,
        targets,
        &mut work,
        &mut indices,
        &mut key,
        &mut own,
        &mut begin,
        &mut total,
        out,
    )
}

// Reads a survey file, and writes its listing or the first refusal. Answers the text's length, or none if it has no room.
pub fn list_file(file: &[u8], out: &mut [u8]) -> Option<usize>
    ensures answer { result ≡ text_answer (length out.old) (file_text file.now) }
    ensures text { out.new ≡ text_left (length out.old) (file_text file.now) }
{
    let mut sources = [0.0f64; 4088];
    let mut targets = [0.0f64; 4088];
    let read = survey::read_survey(file, &mut sources, &mut targets);
    match read {
        Err(refusal) => text::write_refusal(refusal, out),
        Ok(survey) => {
            let b = survey.b;
            let m = survey.sources * b.axes;
            let n = survey.targets * b.axes;
            list_survey(survey, &sources[..m], &targets[..n], out)
        }
    }
}

// Prints the listing of a file, by way of a slice for its text.
pub fn print_listing(rt: &impl Print, file: &[u8], out: &mut [u8]) -> io::Result<()>
    ensures text { out.new ≡ text_left (length out.old) (file_text file.now) }
{
    let text = list_file(file, out);
    match text {
        Some(len) => rt.write_all(&out[..len]),
        None => Ok(()),
    }
}
