// What stands on a sheet beside the names: the individuals' elements, and the links between elements.

#![tactic(auto)]

ghost use Rattle.std.specs.Prelude.{◌≡◌, ◌+◌, ◌*◌, ◌<◌, ◌≤◌, length};
ghost use Rattle.cells.specs.Cells.{element_in, link_in, Seated};

use columns::links_from;

// A sheet without its names, whose grades stand in the columns: for each role the links between the elements, and an element for each individual.
#[derive(Clone, Copy)]
pub struct Frame<'a> {
    pub elements: usize,
    pub links: &'a [u8],
    pub individuals: &'a [u8],
    ghost few_elements: { elements ≤ 64 },
    ghost seated: { Seated elements individuals.now },
}

impl Frame<'_> {
    // The element of individual `j`.
    pub fn element(&self, j: usize) -> usize
        requires { j < length self.now.individuals.now }
        ensures { (result ≡ element_in self.now.individuals.now j) × (result < self.now.elements) }
    {
        usize::from(self.individuals[j])
    }

    // The grade of a role's link from one element to another.
    pub fn link(&self, role: u8, e: usize, f: usize) -> u8
        requires { (e < self.now.elements) × (f < self.now.elements) × ((role + 1) * (self.now.elements * self.now.elements) ≤ length self.now.links.now) }
        ensures { result ≡ link_in self.now.elements self.now.links.now role e f }
    {
        links_from(self.links, self.elements, role, e)[f]
    }
}
