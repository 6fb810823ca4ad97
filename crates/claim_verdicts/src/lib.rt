// Whether a sheet meets a book's claims, and if not the first that is broken.

#![tactic(auto)]

ghost use Rattle.std.specs.Prelude.{◌≡◌, ◌<◌};
ghost use Rattle.chain.specs.Decisions.{Tells};
ghost use Rattle.semantics.specs.Books.{membership_individuals, MeetsLink};
ghost use Rattle.claims.specs.Claims.{claim_count, membership_of, membership_at, memberships_of, link_of, link_at, links_of};
ghost use Rattle.working.specs.Working.{membership_verdict, link_verdict, memberships_verdict, links_verdict};
ghost use Rattle.columns.specs.Columns.{cell_at};
ghost use Rattle.cells.specs.Cells.{sheet, element_in};
ghost use Rattle.claim_verdicts.specs.Covered.{MeetsIfMentioned, MembersMeet, MembershipCovered, LinkCovered, MembershipsCovered, LinksCovered};

use cells::Frame;
use claims::{
    LinkRecord, MembershipRecord, claimed, link_claim_at, membership_at, mentioned, mentioned_from,
    mentions,
};
use columns::Columns;
use working::Verdict;

// ---- membership claims

// Does individual `j` meet the claim, if this mentions it?
fn member_meets(claim: MembershipRecord, j: usize, columns: &Columns, frame: &Frame) -> bool
    requires { MembershipCovered frame.now.individuals.now (membership_of claim) × (j < membership_individuals (membership_of claim)) }
    ensures { Tells result (MeetsIfMentioned (cell_at columns.now) (element_in frame.now.individuals.now) (membership_of claim) j) }
{
    !mentions(claim, j) || claimed(claim, columns.cell(claim.term, frame.element(j)))
}

// Does each individual that the claim mentions meet it?
fn members_meet(claim: MembershipRecord, columns: &Columns, frame: &Frame) -> bool
    requires { MembershipCovered frame.now.individuals.now (membership_of claim) }
    ensures { Tells result (MembersMeet (cell_at columns.now) (element_in frame.now.individuals.now) (membership_of claim)) }
{
    (mentioned_from(claim)..mentioned(claim)).all(|j| member_meets(claim, j, columns, frame))
}

fn membership_verdict(memberships: &[u8], i: usize, columns: &Columns, frame: &Frame) -> Verdict
    requires { (i < claim_count memberships.now) × MembershipCovered frame.now.individuals.now (membership_at memberships.now i) }
    ensures { result ≡ membership_verdict (cell_at columns.now) (element_in frame.now.individuals.now) i (membership_at memberships.now i) }
{
    if members_meet(membership_at(memberships, i), columns, frame) {
        return Verdict::Meets;
    }
    Verdict::BreaksMembership(i)
}

pub fn memberships_verdict(memberships: &[u8], columns: &Columns, frame: &Frame) -> Verdict
    requires { MembershipsCovered frame.now.individuals.now memberships.now }
    ensures { result ≡ memberships_verdict (cell_at columns.now) (element_in frame.now.individuals.now) (memberships_of memberships.now) }
{
    Verdict::first(
        memberships.len() / 4,
        |i| membership_verdict(memberships, i, columns, frame),
    )
}

// ---- link claims

fn link_meets(claim: LinkRecord, frame: &Frame) -> bool
    requires { LinkCovered frame.now.elements frame.now.links.now frame.now.individuals.now (link_of claim) }
    ensures { Tells result (MeetsLink (sheet frame.now.elements frame.now.links.now frame.now.individuals.now) (link_of claim)) }
{
    let e = frame.element(usize::from(claim.source));
    let f = frame.element(usize::from(claim.target));
    claim.grade <= frame.link(claim.role, e, f)
}

fn link_verdict(claims: &[u8], i: usize, frame: &Frame) -> Verdict
    requires { (i < claim_count claims.now) × LinkCovered frame.now.elements frame.now.links.now frame.now.individuals.now (link_at claims.now i) }
    ensures { result ≡ link_verdict (sheet frame.now.elements frame.now.links.now frame.now.individuals.now) i (link_at claims.now i) }
{
    if link_meets(link_claim_at(claims, i), frame) {
        return Verdict::Meets;
    }
    Verdict::BreaksLink(i)
}

pub fn links_verdict(claims: &[u8], frame: &Frame) -> Verdict
    requires { LinksCovered frame.now.elements frame.now.links.now frame.now.individuals.now claims.now }
    ensures { result ≡ links_verdict (sheet frame.now.elements frame.now.links.now frame.now.individuals.now) (links_of claims.now) }
{
    Verdict::first(claims.len() / 4, |i| link_verdict(claims, i, frame))
}
