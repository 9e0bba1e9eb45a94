// The facts of 01 that are run and not proved as theorems: each `expect` compares what the code gives with what the paper says.
#![tactic(auto)]

fn main() {
    // the published check value: the EDC of "123456789"
    check::expect(edc::edc(b"123456789") == 0x29B1);
}
