// Elements by their numbers in row-major order, and how many of them follow one another in the file.
ghost use Rattle.std.specs.Prelude.{◌≡◌, ℕ, ◌+◌, ◌*◌, ◌<◌, ◌≤◌, ◌^◌, List, length, true, false};
ghost use Rattle.serial_spec.specs.ExternalForm as external;
ghost use Rattle.serial_spec.specs.Layout as layout;
ghost use Rattle.serial_spec.specs.Layout.{product, lengths_of};
ghost use Rattle.serial_spec.specs.Place as spec;
ghost use Rattle.serial_spec.specs.Place.{IsIndex, IsElement};
ghost use Rattle.serial_spec.specs.Request.{index_at};
ghost use Rattle.vara_extents.specs.Numbered.{coordinates_of, index_of, row_of, weighted, AreRuns, HaveRows};

use nc_base::{Header, Region, Var};
use type_external::{element_count, size_of};
use var_layout::{is_record, length_of};

/// An element on the way from the outer dimensions to the inner ones.
struct Descent {
    /// Its number in the dimensions that are left.
    number: u64,
    /// How many indices of the outer dimensions stand before it.
    before: u64,
}

/// How many indices of all the dimensions stand before that of the element.
fn row(
    header: &Header,
    ids: &[u32],
    starts: &[u64],
    counts: &[u64],
    strides: &[u64],
    element: Descent,
) -> u64
    requires valid { IsIndex (lengths_of header.now ids.now) (index_at starts.now strides.now (coordinates_of counts.now element.number)) }
    requires number { element.number < product counts.now }
    requires small { product counts.now ≤ 2 ^ 20 }
    requires below { element.before * product (lengths_of header.now ids.now) + row_of header.now ids.now starts.now counts.now strides.now element.number < 2 ^ 62 }
    ensures { result ≡ element.before * product (lengths_of header.now ids.now) + row_of header.now ids.now starts.now counts.now strides.now element.number }
{
    let Descent { number, before } = element;
    let [id, ids @ ..] = ids else { return before };
    let [start, starts @ ..] = starts else {
        return before
    };
    let [_, counts @ ..] = counts else {
        return before
    };
    let [stride, strides @ ..] = strides else {
        return before
    };
    let inner = element_count(counts);
    let index = *start + number / inner * *stride;
    let element = Descent {
        number: number % inner,
        before: before * length_of(header, *id) + index,
    };
    row(header, ids, starts, counts, strides, element)
}

/// The first byte of the element of a fixed variable that has this number.
fn fixed_place(header: &Header, var: &Var, region: &Region, number: u64) -> u64
    requires fixed { layout.is_record header.now var.now ≡ false }
    requires valid { IsElement header.now var.now (index_of region.now number) }
    requires number { number < product region.now.count }
    requires small { product region.now.count ≤ 2 ^ 20 }
    requires below { spec.place header.now var.now (index_of region.now number) < 2 ^ 62 }
    ensures { result ≡ spec.place header.now var.now (index_of region.now number) }
{
    let ids = var.dims.as_slice();
    let starts = region.start.as_slice();
    let counts = region.count.as_slice();
    let strides = region.stride.as_slice();
    let element = Descent { number, before: 0 };
    let rows = row(header, ids, starts, counts, strides, element);
    var.begin + rows * size_of(var.kind)
}

/// The first byte of the element of a record variable that has this number.
fn record_place(header: &Header, var: &Var, region: &Region, recsize: u64, number: u64) -> u64
    requires record_variable { layout.is_record header.now var.now ≡ true }
    requires recsize { recsize ≡ layout.recsize header.now }
    requires wide { 1 ≤ recsize }
    requires valid { IsElement header.now var.now (index_of region.now number) }
    requires number { number < product region.now.count }
    requires small { product region.now.count ≤ 2 ^ 20 }
    requires below { spec.place header.now var.now (index_of region.now number) < 2 ^ 62 }
    ensures { result ≡ spec.place header.now var.now (index_of region.now number) }
{
    let [_, ids @ ..] = var.dims.as_slice() else {
        return var.begin
    };
    let [start, starts @ ..] = region.start.as_slice() else {
        return var.begin
    };
    let [_, counts @ ..] = region.count.as_slice() else {
        return var.begin
    };
    let [stride, strides @ ..] = region.stride.as_slice() else {
        return var.begin
    };
    let inner = element_count(counts);
    let record = *start + number / inner * *stride;
    let element = Descent {
        number: number % inner,
        before: 0,
    };
    let rows = row(header, ids, starts, counts, strides, element);
    var.begin + record * recsize + rows * size_of(var.kind)
}

/// The first byte of the element of a region that has this number.
pub(crate) fn place_of(
    header: &Header,
    var: &Var,
    region: &Region,
    recsize: u64,
    number: u64,
) -> u64
    requires recsize { recsize ≡ layout.recsize header.now }
    requires wide { layout.is_record header.now var.now ≡ true → 1 ≤ recsize }
    requires valid { IsElement header.now var.now (index_of region.now number) }
    requires number { number < product region.now.count }
    requires small { product region.now.count ≤ 2 ^ 20 }
    requires below { spec.place header.now var.now (index_of region.now number) < 2 ^ 62 }
    ensures { result ≡ spec.place header.now var.now (index_of region.now number) }
{
    if is_record(header, var) {
        record_place(header, var, region, recsize, number)
    } else {
        fixed_place(header, var, region, number)
    }
}

/// Elements that follow one another in the file.
#[derive(Clone, Copy)]
struct Run {
    /// How many they are.
    elements: u64,
    /// Whether they are all elements of their dimensions.
    whole: bool,
}

/// The elements of a region in these dimensions that follow one another, from each multiple of their number on.
fn inner_run(header: &Header, ids: &[u32], counts: &[u64], strides: &[u64]) -> Run
    requires some { 1 ≤ product counts.now }
    requires small { product counts.now ≤ 2 ^ 20 }
    requires counts { length counts.now ≡ length ids.now }
    requires strides { length strides.now ≡ length ids.now }
    ensures runs { (starts : List ℕ) → length starts ≡ length ids.now
        → AreRuns (row_of header.now ids.now starts counts.now strides.now) 1 result.elements (product counts.now) }
    ensures whole { result.whole ≡ true → (result.elements ≡ product counts.now) × (product counts.now ≡ product (lengths_of header.now ids.now)) }
{
    let [id, ids @ ..] = ids else {
        return Run {
            elements: 1,
            whole: true,
        }
    };
    let [count, counts @ ..] = counts else {
        return Run {
            elements: 1,
            whole: false,
        }
    };
    let [stride, strides @ ..] = strides else {
        return Run {
            elements: 1,
            whole: false,
        }
    };
    let inner = inner_run(header, ids, counts, strides);
    if inner.whole && (*count == 1 || *stride == 1) {
        Run {
            elements: *count * inner.elements,
            whole: *count == length_of(header, *id),
        }
    } else {
        Run {
            elements: inner.elements,
            whole: false,
        }
    }
}

/// How many elements of a region of a record variable follow one another, from each multiple of that number on.
fn record_run(header: &Header, var: &Var, region: &Region, recsize: u64) -> u64
    requires record_variable { layout.is_record header.now var.now ≡ true }
    requires recsize { recsize ≡ layout.recsize header.now }
    requires some { 1 ≤ product region.now.count }
    requires small { product region.now.count ≤ 2 ^ 20 }
    requires starts { length region.now.start ≡ length var.now.dims }
    requires counts { length region.now.count ≡ length var.now.dims }
    requires strides { length region.now.stride ≡ length var.now.dims }
    ensures { AreRuns (λ k. spec.place header.now var.now (index_of region.now k)) (external.size_of var.now.kind) result (product region.now.count) }
{
    let [_, ids @ ..] = var.dims.as_slice() else {
        return 1
    };
    let [count, counts @ ..] = region.count.as_slice() else {
        return 1
    };
    let [stride, strides @ ..] = region.stride.as_slice() else {
        return 1
    };
    let inner = inner_run(header, ids, counts, strides);
    let touching = recsize == inner.elements * size_of(var.kind);
    if inner.whole && *stride == 1 && touching {
        *count * inner.elements
    } else {
        inner.elements
    }
}

/// How many elements of a region follow one another in the file, from each multiple of that number on.
pub(crate) fn run_of(header: &Header, var: &Var, region: &Region, recsize: u64) -> u64
    requires recsize { recsize ≡ layout.recsize header.now }
    requires some { 1 ≤ product region.now.count }
    requires small { product region.now.count ≤ 2 ^ 20 }
    requires starts { length region.now.start ≡ length var.now.dims }
    requires counts { length region.now.count ≡ length var.now.dims }
    requires strides { length region.now.stride ≡ length var.now.dims }
    ensures { AreRuns (λ k. spec.place header.now var.now (index_of region.now k)) (external.size_of var.now.kind) result (product region.now.count) }
{
    if is_record(header, var) {
        return record_run(header, var, region, recsize);
    }
    let ids = var.dims.as_slice();
    let counts = region.count.as_slice();
    inner_run(header, ids, counts, region.stride.as_slice()).elements
}

/// How many runs of so many elements stand in a row: those that differ in the innermost dimension that has several. Their places go
/// up by equal steps.
pub(crate) fn row_of_runs(counts: &[u64], run: u64) -> u64
    requires some { 1 ≤ product counts.now }
    requires small { product counts.now ≤ 2 ^ 20 }
    requires run { 1 ≤ run }
    ensures { (weights : List ℕ) → length weights ≡ length counts.now → HaveRows (λ k. weighted weights (coordinates_of counts.now k)) run result (product counts.now) }
{
    let [count, counts @ ..] = counts else {
        return 1
    };
    if element_count(counts) == run {
        *count
    } else {
        row_of_runs(counts, run)
    }
}
