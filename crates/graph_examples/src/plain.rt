// A graph as flat lists, and what edits make of it: told once more, beside the definitions.
ghost use Rattle.std.specs.Prelude.{◌<◌, length, IfSome};

use bolt_base::{AttrChange, Edge, Edit, Limits, LineCause, Touched};
use std::alloc::{AllocError, Global};

/// An attribute for each vertex, and edges in no order.
#[derive(Drop)]
pub struct Plain {
    pub attrs: Vec<i64>,
    pub edges: Vec<Edge>,
}

/// The change from lists to other ones.
#[derive(Drop)]
pub struct PlainChange {
    pub added: Vec<Edge>,
    pub removed: Vec<Edge>,
    pub sources: Vec<Touched>,
    pub attrs: Vec<AttrChange>,
}

/// A number as it stands in a graph.
pub fn short(number: usize) -> u32 {
    match u32::try_from(number) {
        Ok(number) => number,
        Err(_) => u32::MAX,
    }
}

impl Plain {
    /// No vertices.
    pub fn new(alloc: Global) -> Plain {
        Plain {
            attrs: Vec::new(alloc),
            edges: Vec::new(alloc),
        }
    }

    /// The same lists.
    pub fn copy(&self, alloc: Global) -> Result<Plain, AllocError> {
        let attrs = Vec::from_slice(alloc, &self.attrs)?;
        let edges = Vec::from_slice(alloc, &self.edges)?;
        Ok(Plain { attrs, edges })
    }

    // Where the edge of a pair stands.
    fn place(&self, src: u32, dst: u32) -> Option<usize>
        ensures { IfSome result (λ k. k < length self.now.edges.items) }
    {
        for k in 0..self.edges.len() {
            let edge = self.edges[k];
            if edge.src == src && edge.dst == dst {
                return Some(k);
            }
        }
        None
    }

    /// The weight of a pair's edge.
    pub fn weight(&self, src: u32, dst: u32) -> Option<i64> {
        let k = self.place(src, dst)?;
        Some(self.edges[k].weight)
    }

    /// How many edges go out of a vertex.
    pub fn out_degree(&self, u: u32) -> u32 {
        let mut degree = 0u32;
        for edge in &self.edges {
            degree = degree.saturating_add((edge.src == u) as u32);
        }
        degree
    }

    /// How many edges go into a vertex.
    pub fn in_degree(&self, v: u32) -> u32 {
        let mut degree = 0u32;
        for edge in &self.edges {
            degree = degree.saturating_add((edge.dst == v) as u32);
        }
        degree
    }

    // Why an addition is bad.
    fn cause_of_addition(&self, limits: &Limits, edge: &Edge) -> Option<LineCause> {
        let vertices = short(self.attrs.len());
        if edge.src >= vertices || edge.dst >= vertices {
            Some(LineCause::Vertex)
        } else if edge.weight < limits.weight_lo || limits.weight_hi < edge.weight {
            Some(LineCause::Weight)
        } else if self.weight(edge.src, edge.dst).is_some() {
            Some(LineCause::Present)
        } else if self.out_degree(edge.src) >= limits.degree
            || self.in_degree(edge.dst) >= limits.degree
        {
            Some(LineCause::Degree)
        } else if short(self.edges.len()) >= limits.edges {
            Some(LineCause::Edges)
        } else {
            None
        }
    }

    // Why an edit is bad.
    fn cause(&self, limits: &Limits, edit: &Edit) -> Option<LineCause> {
        let vertices = short(self.attrs.len());
        match edit {
            Edit::Add(edge) => self.cause_of_addition(limits, edge),
            Edit::Cut { src, dst } => {
                if *src >= vertices || *dst >= vertices {
                    Some(LineCause::Vertex)
                } else if self.weight(*src, *dst).is_none() {
                    Some(LineCause::Absent)
                } else {
                    None
                }
            }
            Edit::Attr { vertex, attr } => {
                if *vertex > vertices || *vertex == vertices && vertices >= limits.vertices {
                    Some(LineCause::Vertex)
                } else if *attr < limits.attr_lo || limits.attr_hi < *attr {
                    Some(LineCause::Attribute)
                } else {
                    None
                }
            }
        }
    }

    // Makes a good edit.
    fn edit(&mut self, edit: &Edit) -> Result<(), AllocError> {
        match edit {
            Edit::Add(edge) => self.edges.push(*edge)?,
            Edit::Cut { src, dst } => {
                if let Some(k) = self.place(*src, *dst) {
                    let _cut = self.edges.swap_remove(k);
                }
            }
            Edit::Attr { vertex, attr } => match self.attrs.get_mut(*vertex as usize) {
                Some(old) => *old = *attr,
                None => self.attrs.push(*attr)?,
            },
        }
        Ok(())
    }

    /// Makes the edits up to the first bad one, and tells this.
    pub fn make(
        &mut self,
        limits: &Limits,
        edits: &[Edit],
    ) -> Result<Option<(u32, LineCause)>, AllocError> {
        for k in 0..edits.len() {
            if let Some(cause) = self.cause(limits, &edits[k]) {
                return Ok(Some((short(k), cause)));
            }
            self.edit(&edits[k])?;
        }
        Ok(None)
    }

    // The edges that other lists lack or have with another weight, by source and destination.
    fn edges_beyond(&self, alloc: Global, other: &Plain) -> Result<Vec<Edge>, AllocError> {
        let mut rising = Vec::new(alloc);
        for edge in &self.edges {
            if other.weight(edge.src, edge.dst) != Some(edge.weight) {
                rising.push((edge.src, edge.dst, edge.weight))?;
            }
        }
        rising.sort_unstable();
        let mut edges = Vec::new(alloc);
        for (src, dst, weight) in &rising {
            edges.push(Edge {
                src: *src,
                dst: *dst,
                weight: *weight,
            })?;
        }
        Ok(edges)
    }

    // The attributes that are other ones in later lists.
    fn changed_attrs(&self, alloc: Global, new: &Plain) -> Result<Vec<AttrChange>, AllocError> {
        let mut changes = Vec::new(alloc);
        for k in 0..self.attrs.len() {
            let old = self.attrs[k];
            if let Some(new) = new.attrs.get(k) {
                if *new != old {
                    changes.push(AttrChange {
                        vertex: short(k),
                        old,
                        new: *new,
                    })?;
                }
            }
        }
        Ok(changes)
    }

    /// The change from these lists to later ones.
    pub fn change(&self, alloc: Global, new: &Plain) -> Result<PlainChange, AllocError> {
        let added = new.edges_beyond(alloc, self)?;
        let removed = self.edges_beyond(alloc, new)?;
        let mut sources = Vec::new(alloc);
        for u in 0..short(new.attrs.len()) {
            if has_source(&added, u) || has_source(&removed, u) {
                sources.push(Touched {
                    vertex: u,
                    old_degree: self.out_degree(u),
                })?;
            }
        }
        let attrs = self.changed_attrs(alloc, new)?;
        Ok(PlainChange {
            added,
            removed,
            sources,
            attrs,
        })
    }
}

// Whether one of the edges goes out of a vertex.
fn has_source(edges: &[Edge], u: u32) -> bool {
    for edge in edges {
        if edge.src == u {
            return true;
        }
    }
    false
}
