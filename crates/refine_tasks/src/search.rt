// Vertices that are looked up in lists that rise.
ghost use Rattle.std.specs.Prelude.{◌≡◌, IfOk, IfErr, true};
ghost use Rattle.refine_tasks.specs.Sides.{HasKey, LacksKey};

use bolt_base::{AttrChange, Touched};

/// Where the next vertex is looked for first, among the sources of changed edges and among the
/// dirty vertices. Any place is right. Where both lists are walked beside one that has all of them,
/// the place behind the last one is quick.
#[derive(Clone, Copy)]
pub(crate) struct Hints {
    pub(crate) touched: usize,
    pub(crate) dirty: usize,
}

impl Hints {
    /// The places for the vertices above this one.
    pub(crate) fn past(self, touched: &[Touched], dirty: &[u32], u: u32) -> Hints {
        Hints {
            touched: if is_touched_at(touched, self.touched, u) {
                self.touched.saturating_add(1)
            } else {
                self.touched
            },
            dirty: if is_vertex_at(dirty, self.dirty, u) {
                self.dirty.saturating_add(1)
            } else {
                self.dirty
            },
        }
    }
}

// Whether the source of changed edges at a place is this vertex.
fn is_touched_at(touched: &[Touched], at: usize, u: u32) -> bool
    ensures { result ≡ true → HasKey (λ t. t.vertex) touched.now u at }
{
    at < touched.len() && touched[at].vertex == u
}

// Whether a vertex would stand at a place of the sources of changed edges, and doesn't.
fn is_touched_gap(touched: &[Touched], at: usize, u: u32) -> bool
    ensures { result ≡ true → LacksKey (λ t. t.vertex) touched.now u }
{
    at <= touched.len()
        && (at == 0 || touched[at - 1].vertex < u)
        && (at == touched.len() || u < touched[at].vertex)
}

// Whether the vertex at a place is this one.
fn is_vertex_at(us: &[u32], at: usize, u: u32) -> bool
    ensures { result ≡ true → HasKey (λ v. v) us.now u at }
{
    at < us.len() && us[at] == u
}

// Whether a vertex would stand at a place of a list of vertices, and doesn't.
fn is_vertex_gap(us: &[u32], at: usize, u: u32) -> bool
    ensures { result ≡ true → LacksKey (λ v. v) us.now u }
{
    at <= us.len() && (at == 0 || us[at - 1] < u) && (at == us.len() || u < us[at])
}

/// The place of a vertex among the sources of changed edges, looked for first at `near`.
pub(crate) fn touched_near(touched: &[Touched], near: usize, u: u32) -> Result<usize, usize>
    ensures found { IfOk result (HasKey (λ t. t.vertex) touched.now u) }
    ensures absent { IfErr result (λ _. LacksKey (λ t. t.vertex) touched.now u) }
{
    if is_touched_at(touched, near, u) {
        return Ok(near);
    }
    if is_touched_gap(touched, near, u) {
        return Err(near);
    }
    touched_place(touched, u)
}

/// The place of a vertex in a list of vertices, looked for first at `near`.
pub(crate) fn vertex_near(us: &[u32], near: usize, u: u32) -> Result<usize, usize>
    ensures found { IfOk result (HasKey (λ v. v) us.now u) }
    ensures absent { IfErr result (λ _. LacksKey (λ v. v) us.now u) }
{
    if is_vertex_at(us, near, u) {
        return Ok(near);
    }
    if is_vertex_gap(us, near, u) {
        return Err(near);
    }
    vertex_place(us, u)
}

// The place of a vertex among the sources of changed edges.
fn touched_place(touched: &[Touched], u: u32) -> Result<usize, usize>
    ensures found { IfOk result (HasKey (λ t. t.vertex) touched.now u) }
    ensures absent { IfErr result (λ _. LacksKey (λ t. t.vertex) touched.now u) }
{
    touched.binary_search_by_key(&u, |&Touched { vertex, .. }| vertex)
}

/// The place of a vertex among those whose attribute is another one.
pub(crate) fn attr_place(attrs: &[AttrChange], u: u32) -> Result<usize, usize>
    ensures found { IfOk result (HasKey (λ a. a.vertex) attrs.now u) }
    ensures absent { IfErr result (λ _. LacksKey (λ a. a.vertex) attrs.now u) }
{
    attrs.binary_search_by_key(&u, |&AttrChange { vertex, .. }| vertex)
}

/// The place of a vertex in a list of vertices.
pub(crate) fn vertex_place(us: &[u32], u: u32) -> Result<usize, usize>
    ensures found { IfOk result (HasKey (λ v. v) us.now u) }
    ensures absent { IfErr result (λ _. LacksKey (λ v. v) us.now u) }
{
    us.binary_search(&u)
}
