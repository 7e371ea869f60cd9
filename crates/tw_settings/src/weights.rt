// The weights that settings give: taskrc(5), under "URGENCY".
ghost use Rattle.std.specs.Prelude.{◌≡◌, ◌≤◌, codes};
ghost use Rattle.tw_urgency.specs.Urgency.{IsSmall, AreWeights};
ghost use Rattle.tw_settings.specs.Weights.{coefficient, number_of, weights_over, weights};

use crate::settings::Settings;
use tw_text::{read_decimal3, read_u64};
use tw_urgency::Coefficients;

impl Settings {
    fn coefficient(&self, name: &str, default: i64) -> i64
        requires { IsSmall default }
        ensures value { result ≡ coefficient name.now default self.now }
        ensures small { IsSmall result }
    {
        match self.get(name) {
            Some(text) => match read_decimal3(text) {
                Some(n) => n,
                None => default,
            },
            None => default,
        }
    }

    fn age_max(&self, default: u32) -> u32
        requires least { 1 ≤ default }
        requires greatest { default ≤ 100_000 }
        ensures value { result ≡ number_of (codes "urgency.age.max") 100_000 default self.now }
        ensures least { 1 ≤ result }
        ensures greatest { result ≤ 100_000 }
    {
        match self.get("urgency.age.max") {
            Some(text) => match read_u64(text) {
                Some(days) if days >= 1 && days <= 100_000 => days as u32,
                _ => default,
            },
            None => default,
        }
    }

    // The weights, each that of `usual` if no other is set.
    fn weights_over(&self, usual: &Coefficients) -> Coefficients
        requires { AreWeights usual.now }
        ensures value { result ≡ weights_over usual.now self.now }
        ensures small { AreWeights result }
    {
        Coefficients {
            tag_next: self.coefficient("urgency.user.tag.next.coefficient", usual.tag_next),
            due: self.coefficient("urgency.due.coefficient", usual.due),
            blocking: self.coefficient("urgency.blocking.coefficient", usual.blocking),
            high: self.coefficient("urgency.uda.priority.H.coefficient", usual.high),
            medium: self.coefficient("urgency.uda.priority.M.coefficient", usual.medium),
            low: self.coefficient("urgency.uda.priority.L.coefficient", usual.low),
            scheduled: self.coefficient("urgency.scheduled.coefficient", usual.scheduled),
            active: self.coefficient("urgency.active.coefficient", usual.active),
            age: self.coefficient("urgency.age.coefficient", usual.age),
            annotations: self.coefficient("urgency.annotations.coefficient", usual.annotations),
            tags: self.coefficient("urgency.tags.coefficient", usual.tags),
            project: self.coefficient("urgency.project.coefficient", usual.project),
            blocked: self.coefficient("urgency.blocked.coefficient", usual.blocked),
            waiting: self.coefficient("urgency.waiting.coefficient", usual.waiting),
            age_max: self.age_max(usual.age_max),
        }
    }

    /// The weights of the terms of urgency in thousandths, each the default if no other is set or the value is empty, and the greatest age
    /// in days. It takes no memory.
    pub fn weights(&self) -> Coefficients
        ensures value { result ≡ weights self.now }
        ensures small { AreWeights result }
    {
        self.weights_over(&Coefficients::defaults())
    }
}
