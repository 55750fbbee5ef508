// The runs of one weight in a list of indices: the blocks of an image.
ghost use Rattle.std.specs.Prelude.{◌≡◌, ◌<◌, length, get_or};
ghost use Rattle.lists.specs.Lists.{All, runs};
ghost use Rattle.image_blocks.specs.Naming.{same_weight};
ghost use Rattle.image_blocks.specs.Runs.{RunEnds};

// The weight of the element at index `j` of `sorted`.
fn weight_of(weights: &[u64], sorted: &[u16], j: usize) -> u64
    requires { (j < length sorted.now) × All (λ i. i < length weights.now) sorted.now }
    ensures { result ≡ get_or weights.now (get_or sorted.now j 0) 0 }
{
    weights[sorted[j] as usize]
}

// Where the run that begins at index `low` of `sorted` ends. Internal to this library's crates: what `sorted` holds are indices of weights.
pub fn run_end(weights: &[u64], sorted: &[u16], low: usize) -> usize
    requires { (low < length sorted.now) × All (λ i. i < length weights.now) sorted.now }
    ensures { RunEnds weights.now sorted.now low result }
{
    let weight = weight_of(weights, sorted, low);
    // By index, since that is the answer.
    for high in low + 1..sorted.len() {
        if weight_of(weights, sorted, high) != weight {
            return high;
        }
    }
    sorted.len()
}

// How many runs there are. Internal to this library's crates, as `run_end` is.
pub fn count_runs(weights: &[u64], sorted: &[u16]) -> usize
    requires { All (λ i. i < length weights.now) sorted.now }
    ensures { result ≡ length (runs (same_weight weights.now) sorted.now) }
{
    let mut low = 0;
    let mut many = 0;
    while low < sorted.len() {
        low = run_end(weights, sorted, low);
        many += 1;
    }
    many
}
