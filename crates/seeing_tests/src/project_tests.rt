// Expected values: by hand from "Separations" in docs/RULES.md.
use project::project;

#[test]
fn projects(rt: HostRuntime) {
    assert_eq!(rt; project(0, 0, 25_600, 10, 4_096, 70), 734_208);
    assert_eq!(rt; project(0, 25_600, -25_600, 10, 4_096, 12), 147_456);
    assert_eq!(rt; project(0, -1, -1, 10, 4_096, 1), -1);
    assert_eq!(rt; project(0, 0, 25_600, 5, 5_632, 1_200), 15_272_960);
}
