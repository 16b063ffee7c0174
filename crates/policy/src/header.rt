// The numbers at the front of the file. Each is a function of one line with its name in document 01; one function by the place alone would be no plainer.
ghost use Rattle.std.specs.Prelude.{◌≡◌, ◌+◌, ◌<◌, ◌≤◌, length};
ghost use Rattle.definitions.specs.Bytes.{byte, two_bytes};
ghost use Rattle.definitions.specs.Policy.{events, fields, variables, rules, count, starts, rule_size};

pub fn two_bytes(bytes: &[u8], at: usize) -> usize
    requires { at + 1 < length bytes.now }
    ensures { (result ≡ two_bytes bytes.now at) × (result < 65536) }
{
    usize::from(u16::from_be_bytes([bytes[at], bytes[at + 1]]))
}

pub fn events(policy: &[u8]) -> usize
    requires { 9 ≤ length policy.now }
    ensures { (result ≡ events policy.now) × (result < 256) }
{
    usize::from(policy[5])
}

pub fn fields(policy: &[u8]) -> usize
    requires { 9 ≤ length policy.now }
    ensures { (result ≡ fields policy.now) × (result < 256) }
{
    usize::from(policy[6])
}

pub fn variables(policy: &[u8]) -> usize
    requires { 9 ≤ length policy.now }
    ensures { (result ≡ variables policy.now) × (result < 256) }
{
    usize::from(policy[7])
}

pub fn rules(policy: &[u8]) -> usize
    requires { 9 ≤ length policy.now }
    ensures { (result ≡ rules policy.now) × (result < 256) }
{
    usize::from(policy[8])
}

// How many values field f has.
pub fn count(policy: &[u8], f: usize) -> usize
    requires { 9 + f < length policy.now }
    ensures { (result ≡ count policy.now f) × (result < 256) }
{
    usize::from(policy[9 + f])
}

// How many starting values the file carries: in version 2 one for each variable, in version 1 none.
pub fn starts(policy: &[u8]) -> usize
    requires { 9 ≤ length policy.now }
    ensures { (result ≡ starts policy.now) × (result < 256) }
{
    if two_bytes(policy, 3) == 2 {
        variables(policy)
    } else {
        0
    }
}

// The starting value of variable j, in a file that carries it.
pub fn start(policy: &[u8], j: usize) -> usize
    requires { (9 ≤ length policy.now) × (9 + fields policy.now + j < length policy.now) }
    ensures { (result ≡ byte policy.now (9 + fields policy.now + j)) × (result < 256) }
{
    usize::from(policy[9 + fields(policy) + j])
}

// The bytes of a rule's record.
pub fn rule_size(policy: &[u8]) -> usize
    requires { 9 ≤ length policy.now }
    ensures { (result ≡ rule_size policy.now) × (result < 2048) }
{
    2 * fields(policy) + 2 + 3 * variables(policy)
}
