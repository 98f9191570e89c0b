// What a block is asked for, and the first fault of it.
ghost use Rattle.std.specs.Prelude.{◌≡◌, IfOk};
ghost use Rattle.model.specs.Placing.{fault};
ghost use Rattle.refusals.specs.Refusals.{fault_of};
ghost use Rattle.sub_allocator.specs.Requests.{request_of};

use pages;
use refusals::Refusal;

// The kind is a number, since callers may pass any.
#[derive(Clone, Copy, Debug, PartialEq, Eq)]
pub struct Request {
    pub size: u64,
    pub alignment: u64,
    pub kind: u64,
    pub granularity: u64,
    pub label: u64,
}

// A request that has no fault.
#[derive(Clone, Copy)]
pub struct WellFormed {
    pub request: Request,
    ghost well_formed: { fault (request_of request) ≡ 0 },
}

impl Request {
    // The first fault, if there is one.
    #[tactic(auto, unfolding(model::specs::Placing::fault))]
    pub fn checked(self) -> Result<WellFormed, Refusal>
        ensures fault { fault_of result ≡ fault (request_of self) }
        ensures same { IfOk result (λ r. r.request ≡ self) }
    {
        if self.size == 0 {
            return Err(Refusal::ZeroSize);
        }
        if !pages::is_power_of_two(self.alignment) {
            return Err(Refusal::Alignment);
        }
        if !pages::is_power_of_two(self.granularity) {
            return Err(Refusal::Granularity);
        }
        if self.kind != 1 && self.kind != 2 {
            return Err(Refusal::Kind);
        }
        Ok(WellFormed { request: self })
    }
}
